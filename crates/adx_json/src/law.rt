//! A law of the grammar.
ghost use Rattle.std.specs.Prelude.{◌≡◌, ℕ, List};
ghost use Rattle.adx_json.specs.Tree.{Tree};
ghost use Rattle.adx_json.specs.Grammar.{IsJson};

/// A text is JSON of at most one tree.
pub fn one_tree()
    ensures { (bytes : List ℕ) (t u : Tree) → IsJson bytes t → IsJson bytes u → t ≡ u }
{}
