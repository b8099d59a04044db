// Names ahead in a text: those behind the words of one kind, up to the first word of another. The text's own states stand behind state:,
// up to the end; the actions of a state behind action:, up to the next state:. What is promised is in specs/, what is shown in proofs/.
#![tactic(auto)]

ghost use Rattle.std.specs.Prelude.{◌≡◌, ◌<◌, ◌≤◌, length};
ghost use Rattle.model.specs.Words.{listed};
ghost use Rattle.lists.specs.Lent.{found_from};
ghost use Rattle.own.specs.Ahead.{names_from};
ghost use Rattle.own.specs.Held.{Kinds, NextNamed, held, all_names, Places, Holds, Filled};

use kinds::is_same;
use words::next_word;

// Where the next name from a place on that stands behind a word of the kind starts and ends, or that there is none.
pub fn next_named(text: &[u8], at: usize, kind: u8, stop: u8) -> Option<(usize, usize)>
    requires { Kinds kind stop }
    ensures { NextNamed text.now kind stop at result }
{
    let mut i = at;
    // No count: a step is a word long.
    loop {
        let word = next_word(text, i);
        if (word.kind == stop) | (word.kind == 26) {
            return None;
        }
        i = word.end;
        if word.kind == kind {
            let name = next_word(text, i);
            if name.kind == 0 {
                return Some((name.start, name.end));
            }
            return Some((i, i));
        }
    }
}

// How many names a table holds, and the place from which the names go on that it does not hold.
#[derive(Clone, Copy)]
pub struct Holding {
    pub count: usize,
    pub rest: usize,
}

// The places of the first names from a place on, as many as the table has room for: the start of name i at 2 i, its end at 2 i + 1.
pub fn hold(text: &[u8], at: usize, kind: u8, stop: u8, table: &mut [usize]) -> Holding
    requires { Kinds kind stop }
    ensures { Filled text.now table.new kind stop at result.count result.rest }
{
    let room = table.len() / 2;
    let mut rest = at;
    for count in 0..room {
        let Some((start, end)) = next_named(text, rest, kind, stop) else {
            return Holding { count, rest };
        };
        table[2 * count] = start;
        table[2 * count + 1] = end;
        rest = end;
    }
    Holding { count: room, rest }
}

// Name i of a table.
pub fn name_held<'a>(text: &'a [u8], table: &[usize], count: usize, i: usize) -> &'a [u8]
    requires { Places text.now table.now count × (i < count) }
    ensures { result.now ≡ held text.now table.now i }
{
    let start = table[2 * i];
    let end = table[2 * i + 1];
    &text[start..end]
}

// The number of a word among the names that a table holds.
pub fn among_held(text: &[u8], table: &[usize], count: usize, word: &[u8]) -> Option<usize>
    requires { Places text.now table.now count }
    ensures { result ≡ found_from 0 (listed 0 count (held text.now table.now)) word.now }
{
    for i in 0..count {
        if is_same(name_held(text, table, count, i), word) {
            return Some(i);
        }
    }
    None
}

// The number of a word among the names from a place on, the first of which has the number `first`.
pub fn ahead(text: &[u8], at: usize, kind: u8, stop: u8, word: &[u8], first: usize) -> Option<usize>
    requires { Kinds kind stop × (first ≤ at) }
    ensures { result ≡ found_from first (names_from text.now kind stop at) word.now }
{
    let mut i = first;
    let mut from = at;
    while let Some((start, end)) = next_named(text, from, kind, stop) {
        if is_same(&text[start..end], word) {
            return Some(i);
        }
        i += 1;
        from = end;
    }
    None
}

// The number of a word among the names that a table holds and those that go on behind them.
pub fn number_of(
    text: &[u8],
    table: &[usize],
    count: usize,
    rest: usize,
    kind: u8,
    stop: u8,
    word: &[u8],
) -> Option<usize>
    requires { Kinds kind stop × Holds text.now table.now count rest }
    ensures { result ≡ found_from 0 (all_names text.now table.now count kind stop rest) word.now }
{
    let found = among_held(text, table, count, word);
    match found {
        Some(i) => Some(i),
        None => ahead(text, rest, kind, stop, word, count),
    }
}

// A table with room for 8,192 names.
pub fn empty_table() -> [usize; 16384]
    ensures { length result ≡ 16384 }
{
    [0usize; 16384]
}
