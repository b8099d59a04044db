// Which limit a class text passes, where it is refused for its size: what there is one too many of, and where that stands.
ghost use Rattle.std.specs.Prelude.{◌≤◌, length};

use kinds::{ACTION, AND, DO, END, ENDIF, IF, MOVE_TO, NOT_IN, STATE, STAY, THEN, WHEN};
use limits::all_shallow;
use lists::Lists;
use prefixed::walks::order_guards;
use words::next_word;

// What there is a limit for: the words that are counted, and the operators on one path of a guard. In the order of the messages.
#[derive(Clone, Copy)]
pub enum Limit {
    States,
    Whens,
    Actions,
    Statements,
    Guards,
    Ifs,
    Operators,
}

// How many there may be.
fn most(limit: Limit) -> u64 {
    match limit {
        Limit::States => 32,
        Limit::Whens | Limit::Actions => 256,
        Limit::Statements | Limit::Guards => 1024,
        Limit::Ifs => 8,
        Limit::Operators => 16,
    }
}

// One more, up to the number of ifs that there may be.
fn more(left: u64) -> u64 {
    if 7 < left {
        return left;
    }
    left + 1
}

// A word of that kind is one more.
fn is_one(limit: Limit, kind: u8, acting: bool) -> bool {
    match limit {
        Limit::States => kind == STATE,
        Limit::Whens => kind == WHEN,
        Limit::Actions => kind == ACTION,
        Limit::Statements => acting && (kind == MOVE_TO || kind == DO || kind == IF),
        Limit::Guards => AND <= kind && kind <= NOT_IN,
        Limit::Ifs => kind == IF,
        Limit::Operators => false,
    }
}

// Where there is one too many, if there is; an if that ends gives its place back.
fn passes(text: &[u8], limit: Limit) -> Option<usize> {
    let mut left = most(limit);
    let mut acting = false;
    let mut at = 0;
    // No count: a step is a word long.
    loop {
        let word = next_word(text, at);
        let kind = word.kind;
        at = word.end;
        if kind == END {
            return None;
        }
        acting = kind != STATE && (kind == ACTION || acting);
        if is_one(limit, kind, acting) {
            if left == 0 {
                return Some(word.start);
            }
            left -= 1;
        } else if matches!(limit, Limit::Ifs) && kind == ENDIF {
            left = more(left);
        }
    }
}

// Where the guard ends that begins at a place: before the word that says what is done.
fn guard_stop(text: &[u8], from: usize) -> usize
    requires { from ≤ length text.now }
    ensures { (from ≤ result) × (result ≤ length text.now) }
{
    let mut at = from;
    // No count: a step is a word long.
    loop {
        let word = next_word(text, at);
        let kind = word.kind;
        if kind == END {
            return at;
        }
        if (MOVE_TO <= kind && kind <= STAY) || kind == THEN {
            return at;
        }
        at = word.end;
    }
}

// A word of that kind begins a guard that has too many operators on one path.
fn is_deep(text: &[u8], kind: u8, start: usize, end: usize, lists: Lists) -> bool
    requires { (start ≤ end) × (end ≤ length text.now) }
{
    if kind != WHEN && kind != IF {
        return false;
    }
    let stop = guard_stop(text, end);
    let mut records = [0u8; 8192];
    let count = order_guards(&text[start..stop], lists, &mut records);
    let size = count * 8;
    !all_shallow(&records[..size])
}

// Where a clause or an if begins whose guard has too many operators on one path, if one does.
fn too_deep(text: &[u8], lists: Lists) -> Option<usize> {
    let mut at = 0;
    // No count: a step is a word long.
    loop {
        let word = next_word(text, at);
        let kind = word.kind;
        let start = word.start;
        at = word.end;
        if kind == END {
            return None;
        }
        if is_deep(text, kind, start, at, lists) {
            return Some(start);
        }
    }
}

// The first limit that is passed, and where the word stands that passes it.
pub fn limit_passed(text: &[u8], lists: Lists) -> Option<(Limit, usize)> {
    let counted = [
        Limit::States,
        Limit::Whens,
        Limit::Actions,
        Limit::Statements,
        Limit::Guards,
        Limit::Ifs,
    ];
    for limit in counted {
        if let Some(at) = passes(text, limit) {
            return Some((limit, at));
        }
    }
    let at = too_deep(text, lists)?;
    Some((Limit::Operators, at))
}
