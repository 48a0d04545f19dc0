//! Laws of the definitions: each is a function without a body, whose contract is the law. They say that an opening
//! comes to one thing: payloads, or one fault at one place.
ghost use Rattle.std.specs.Prelude.{◌≡◌, ℕ, List, ◌∷◌};
ghost use Rattle.day_journal.specs.Places.{HasBadLength, HasNoHead, StandsFor};

/// A file represents at most one list of payloads, and one with payloads has one format.
pub fn stands_once()
    ensures payloads { (format other : ℕ) (file : List ℕ) (payloads others : List (List ℕ))
        → StandsFor format file payloads → StandsFor other file others → payloads ≡ others }
    ensures format { (format other : ℕ) (file first : List ℕ) (rest others : List (List ℕ))
        → StandsFor format file (first ∷ rest) → StandsFor other file others → format ≡ other }
{}

/// A file that represents payloads has no fault, and none has faults of both kinds.
pub fn faults_exclude()
    ensures bad_length { (format : ℕ) (file : List ℕ) (payloads : List (List ℕ)) (at : ℕ)
        → StandsFor format file payloads → HasBadLength file at → ⊥ }
    ensures no_head { (format : ℕ) (file : List ℕ) (payloads : List (List ℕ)) (at : ℕ)
        → StandsFor format file payloads → HasNoHead file at → ⊥ }
    ensures both { (file : List ℕ) (at place : ℕ) → HasBadLength file at → HasNoHead file place → ⊥ }
{}

/// A fault of each kind has one place.
pub fn one_place()
    ensures bad_length { (file : List ℕ) (at place : ℕ) → HasBadLength file at → HasBadLength file place → at ≡ place }
    ensures no_head { (file : List ℕ) (at place : ℕ) → HasNoHead file at → HasNoHead file place → at ≡ place }
{}
