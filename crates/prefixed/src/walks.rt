// The walk over the words of a text.
ghost use Rattle.std.specs.Prelude.{◌≡◌, ◌-◌, ◌<◌, ◌≤◌, length};
ghost use Rattle.naming.specs.NameLists.{records_in};
ghost use Rattle.words.specs.Scanning.{tokens_from};
ghost use Rattle.ordering.specs.Ordering.{put, atom_record, atom_ahead, with_atom, with_operator, turn};
ghost use Rattle.prefixed.specs.Walking.{LeftOperand, Safe, leveled, Turned, Ordered};

use crate::inserts::insert;
use atoms::atom_ahead;
use kinds::END;
use lists::Lists;
use ordering::{Mark, mark_of};
use words::next_word;

// Where the walk stands: how many brackets are open, the first record of the guard that is read, and how many records there are.
#[derive(Clone, Copy)]
pub struct Stand {
    pub level: usize,
    pub first: usize,
    pub count: usize,
}

// The record at which the left operand of an operator of that key begins.
fn operand_start(keys: &[usize], first: usize, count: usize, key: usize) -> usize
    requires { (first ≤ count) × (count ≤ length keys.now) }
    ensures { LeftOperand keys.now first count key result }
{
    for i in (first..count).rev() {
        let x = keys[i];
        if !((x == 0) | (key <= x)) {
            return i + 1;
        }
    }
    first
}

// One record more, before the record at a place, and its key behind all keys; nothing where a table is full.
fn put_record(
    stand: Stand,
    at: usize,
    key: usize,
    kind: u8,
    pattern: u8,
    set: u32,
    keys: &mut [usize],
    bytes: &mut [u8],
) -> Stand
    requires { Safe stand keys.old bytes.old × (at ≤ stand.count) }
    ensures { Turned stand result keys.old bytes.old keys.new bytes.new (put (stand.count - at) key (atom_record kind pattern set)) }
{
    let count = stand.count;
    if keys.len() <= count {
        return stand;
    }
    if bytes.len() / 8 <= count {
        return stand;
    }
    insert(bytes, at, count, kind, pattern, set);
    keys[count] = key;
    Stand {
        count: count + 1,
        ..stand
    }
}

// An operator on two, in front of its left operand.
fn put_operator(stand: Stand, kind: u8, rank: usize, keys: &mut [usize], bytes: &mut [u8]) -> Stand
    requires { Safe stand keys.old bytes.old × (stand.level < 9223372036854775807) × (rank ≤ 2) }
    ensures { Turned stand result keys.old bytes.old keys.new bytes.new (with_operator kind rank) }
{
    let key = stand.level * 2 + rank;
    let at = operand_start(keys, stand.first, stand.count, key);
    put_record(stand, at, key, kind, 0, 0, keys, bytes)
}

// The atom behind a quantifier, if there is one.
fn put_atom(
    text: &[u8],
    at: usize,
    kind: u8,
    lists: Lists,
    stand: Stand,
    keys: &mut [usize],
    bytes: &mut [u8],
) -> Stand
    requires { Safe stand keys.old bytes.old × (kind < 255) }
    ensures { Turned stand result keys.old bytes.old keys.new bytes.new (with_atom (atom_ahead (records_in 32 lists.entry.names.now) (records_in 36 lists.entry.classes.now) kind (tokens_from text.now at))) }
{
    match atom_ahead(text, at, kind, lists) {
        Some((k, p, s)) => put_record(stand, stand.count, 0, k, p, s, keys, bytes),
        None => stand,
    }
}

// What a word does, where the words behind it begin at a place.
fn turn_at(
    text: &[u8],
    at: usize,
    lists: Lists,
    mark: Mark,
    stand: Stand,
    keys: &mut [usize],
    bytes: &mut [u8],
) -> Stand
    requires { Safe stand keys.old bytes.old × (stand.level < 9223372036854775807) }
    ensures { Turned stand result keys.old bytes.old keys.new bytes.new (turn (records_in 32 lists.entry.names.now) (records_in 36 lists.entry.classes.now) mark (tokens_from text.now at)) }
{
    let level = stand.level;
    let count = stand.count;
    match mark {
        Mark::Any => put_atom(text, at, 0, lists, stand, keys, bytes),
        Mark::All => put_atom(text, at, 2, lists, stand, keys, bytes),
        Mark::Edge => Stand {
            first: count,
            ..stand
        },
        Mark::And => put_operator(stand, 4, 2, keys, bytes),
        Mark::Or => put_operator(stand, 5, 1, keys, bytes),
        Mark::Not => put_record(stand, count, level * 2 + 2, 6, 0, 0, keys, bytes),
        Mark::Open => Stand {
            level: level + 1,
            ..stand
        },
        Mark::Close => Stand {
            level: level.saturating_sub(1),
            ..stand
        },
        Mark::Other => stand,
    }
}

// The guard records of a text, in the sheet's order; how many there are.
pub fn order_guards(text: &[u8], lists: Lists, bytes: &mut [u8]) -> usize
    ensures { Ordered text.now lists.entry.names.now lists.entry.classes.now bytes.new result }
{
    let mut keys = [0usize; 1024];
    let mut stand = Stand {
        level: 0,
        first: 0,
        count: 0,
    };
    let mut at = 0;
    // No count: a step is a word long.
    loop {
        let word = next_word(text, at);
        let kind = word.kind;
        let end = word.end;
        if kind == END {
            return stand.count;
        }
        at = end;
        stand = turn_at(text, end, lists, mark_of(kind), stand, &mut keys, bytes);
    }
}
