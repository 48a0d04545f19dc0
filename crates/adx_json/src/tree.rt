//! A JSON value as a tree.
ghost use Rattle.std.specs.Prelude.{◌≡◌, ◌≢◌, ℕ, List, IfSome, IfNone};
ghost use Rattle.adx_json.specs.Tree.{Items, Members, number, text as text_tree, list, object, items_of, members_of};
ghost use Rattle.adx_json.specs.View.{tree_of, trees_of, members_view};

use adx_units::Text;

/// A JSON value (RFC 8259, section 3). A number is kept as its text.
#[cycle(tree)]
#[derive(Debug, Drop)]
pub enum Json {
    /// The literal null.
    Null,
    /// The literals true and false.
    Bool(bool),
    /// A number, as its text.
    Number(Text),
    /// A text.
    Text(Text),
    /// A list of values.
    List(Vec<Json>),
    /// An object: its members in their order.
    Object(Vec<Member>),
}

/// A member of an object: a name and its value.
#[cycle(tree)]
#[derive(Debug, Drop)]
pub struct Member {
    /// The member's name.
    pub name: Text,
    /// The member's value.
    pub value: Json,
}

impl Json {
    /// The members of an object. None exactly where the value is no object.
    pub fn members(&self) -> Option<&[Member]>
        ensures some { IfSome result (λ ms. tree_of self.now ≡ object (members_of (members_view ms.now))) }
        ensures none { IfNone result ((ms : Members) → tree_of self.now ≢ object ms) }
    {
        match self {
            Json::Object(members) => Some(members.as_slice()),
            _ => None,
        }
    }

    /// The items of a list. None exactly where the value is no list.
    pub fn items(&self) -> Option<&[Json]>
        ensures some { IfSome result (λ ts. tree_of self.now ≡ list (items_of (trees_of ts.now))) }
        ensures none { IfNone result ((ts : Items) → tree_of self.now ≢ list ts) }
    {
        match self {
            Json::List(items) => Some(items.as_slice()),
            _ => None,
        }
    }

    /// The text that the value is. None exactly where the value is no text.
    pub fn text(&self) -> Option<&Text>
        ensures some { IfSome result (λ t. tree_of self.now ≡ text_tree t.now) }
        ensures none { IfNone result ((t : List ℕ) → tree_of self.now ≢ text_tree t) }
    {
        match self {
            Json::Text(text) => Some(text),
            _ => None,
        }
    }

    /// The text of the number that the value is. None exactly where the value is no number.
    pub fn number(&self) -> Option<&Text>
        ensures some { IfSome result (λ n. tree_of self.now ≡ number n.now) }
        ensures none { IfNone result ((n : List ℕ) → tree_of self.now ≢ number n) }
    {
        match self {
            Json::Number(number) => Some(number),
            _ => None,
        }
    }
}
