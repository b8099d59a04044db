// What a word is to the order of guard records.
#![tactic(auto)]

ghost use Rattle.std.specs.Prelude.{◌≡◌};
ghost use Rattle.ordering.specs.Ordering.{mark_of};

use kinds::{ALL, AND, ANY, CLOSE, NOT, OPEN, OR, THEN, WHEN};

// What a word is to a guard: a quantifier; a word at which no guard is open; an operator; a bracket; or nothing.
#[derive(Clone, Copy)]
pub enum Mark {
    Any,
    All,
    Edge,
    And,
    Or,
    Not,
    Open,
    Close,
    Other,
}

// What a word of a kind is.
pub fn mark_of(kind: u8) -> Mark
    ensures { result ≡ mark_of kind }
{
    match kind {
        ANY => Mark::Any,
        ALL => Mark::All,
        WHEN..=THEN => Mark::Edge,
        AND => Mark::And,
        OR => Mark::Or,
        NOT => Mark::Not,
        OPEN => Mark::Open,
        CLOSE => Mark::Close,
        _ => Mark::Other,
    }
}
