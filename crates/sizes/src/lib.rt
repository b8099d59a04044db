// How large the sheet of a text is, counted by its words: what the limits are asked of, before anything is written.
#![tactic(auto)]

ghost use Rattle.std.specs.Prelude.{◌≡◌, ◌<◌, max};
ghost use Rattle.sizes.specs.Counting.{tick, untick, of_guard, of_statement, acting_after, open_after, raised, counted, Below};
ghost use Rattle.sizes.specs.Sized.{Sized};

use kinds::{ACTION, AND, DO, END, ENDIF, IF, MOVE_TO, NOT_IN, STATE, WHEN};
use words::next_word;

// The numbers of states, when clauses, guard records, action clauses and statements, and how deep the deepest if is.
#[derive(Clone, Copy)]
pub struct Sizes {
    pub states: usize,
    pub whens: usize,
    pub guards: usize,
    pub actions: usize,
    pub statements: usize,
    pub deepest: usize,
}

// One more, where the test holds.
pub fn tick(yes: bool, n: usize) -> usize
    requires { n < 18446744073709551615 }
    ensures { result ≡ tick yes n }
{
    if yes { n + 1 } else { n }
}

// One less, where the test holds; never less than none.
fn untick(yes: bool, n: usize) -> usize
    ensures { result ≡ untick yes n }
{
    if yes { n.saturating_sub(1) } else { n }
}

// The greater of two, where the test holds, else the first.
fn raised(yes: bool, deepest: usize, ifs: usize) -> usize
    ensures { result ≡ raised yes deepest ifs }
{
    if yes { deepest.max(ifs) } else { deepest }
}

// The word has a guard record: and, or, not, in_state, not_in_state.
fn of_guard(kind: u8) -> bool
    ensures { result ≡ of_guard kind }
{
    (AND <= kind) & (kind <= NOT_IN)
}

// The word is a statement's first, behind an action: its state.
fn of_statement(kind: u8) -> bool
    ensures { result ≡ of_statement kind }
{
    (kind == MOVE_TO) | ((kind == DO) | (kind == IF))
}

// Whether an action: stands before, in the same state.
fn acting_after(acting: bool, kind: u8) -> bool
    ensures { result ≡ acting_after acting kind }
{
    (kind != STATE) & ((kind == ACTION) | acting)
}

// How many ifs are open behind a word.
fn open_after(ifs: usize, kind: u8) -> usize
    requires { ifs < 18446744073709551615 }
    ensures { result ≡ open_after ifs kind }
{
    untick(kind == ENDIF, tick(kind == IF, ifs))
}

// One word counted.
fn counted(n: Sizes, acting: bool, ifs: usize, kind: u8) -> Sizes
    requires { Below n 18446744073709551614 }
    ensures { result ≡ counted n acting ifs kind }
{
    Sizes {
        states: tick(kind == STATE, n.states),
        whens: tick(kind == WHEN, n.whens),
        guards: tick(of_guard(kind), n.guards),
        actions: tick(kind == ACTION, n.actions),
        statements: tick(of_statement(kind) & acting, n.statements),
        deepest: raised(kind == IF, n.deepest, ifs),
    }
}

// The sizes of a text, in one walk over its words.
pub fn sizes_of(text: &[u8]) -> Sizes
    ensures { Sized text.now result }
{
    let mut n = Sizes {
        states: 0,
        whens: 0,
        guards: 0,
        actions: 0,
        statements: 0,
        deepest: 0,
    };
    let mut acting = false;
    let mut ifs = 0;
    let mut at = 0;
    // No count: a step is a word long.
    loop {
        let word = next_word(text, at);
        let kind = word.kind;
        if kind == END {
            return n;
        }
        acting = acting_after(acting, kind);
        ifs = open_after(ifs, kind);
        n = counted(n, acting, ifs, kind);
        at = word.end;
    }
}
