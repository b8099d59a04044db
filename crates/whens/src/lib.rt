// The body of when clauses: one record for each word `when`, by the words ahead of it.
#![tactic(auto)]

ghost use Rattle.std.specs.Prelude.{◌≡◌, [], ◌∷◌, ◌%◌, ◌<◌};
ghost use Rattle.own.specs.Ahead.{names_from};
ghost use Rattle.own.specs.Held.{Filled};
ghost use Rattle.encoding.specs.Records.{four, fours};
ghost use Rattle.pen.specs.Writing.{Puts};
ghost use Rattle.whens.specs.Ahead.{guards_after, found_number, number_among, low4};
ghost use Rattle.whens.specs.Naming.{NameAhead, Refers};
ghost use Rattle.whens.specs.Whens.{own_number, when_at, WritesWhens};

use kinds::{ACTION, AND, DO, END, MOVE_TO, NAME, NOT_IN, STATE, STAY, WHEN};
use own::{Holding, ahead, hold, number_of};
use pen::put_four;
use words::next_word;

// Where a name starts and ends.
#[derive(Clone, Copy)]
pub struct Stretch {
    pub start: usize,
    pub end: usize,
}

// What a when clause says to do: the name of an own state or of a command.
#[derive(Clone, Copy)]
enum Refer {
    MoveTo(Stretch),
    Do(Stretch),
    Stay,
}

// The lowest byte of a number.
pub fn low_byte(n: usize) -> u8
    ensures { result ≡ n % 256 }
{
    (n % 256) as u8
}

// A record of four numbers, each cut to a byte.
pub fn put_record(out: &mut [u8], at: usize, a: usize, b: usize, c: usize, d: usize) -> usize
    ensures { Puts (fours (low4 (four a b c d) ∷ [])) out.old at out.new result }
{
    put_four(out, at, low_byte(a), low_byte(b), low_byte(c), low_byte(d))
}

// The number of guard records before the next word, where n stand before a word of that kind.
pub fn guards_after(n: usize, kind: u8) -> usize
    requires { n < 18446744073709551615 }
    ensures { result ≡ guards_after n kind }
{
    match kind {
        AND..=NOT_IN => n + 1,
        _ => n,
    }
}

// The name that is next; an empty one where the next word is none, as `NameAhead` says.
pub fn name_ahead(text: &[u8], at: usize) -> Stretch
    ensures { NameAhead text.now at result.start result.end }
{
    let w = next_word(text, at);
    if w.kind != NAME {
        return Stretch { start: 0, end: 0 };
    }
    Stretch {
        start: w.start,
        end: w.end,
    }
}

// The number that was found, or 0, as `number_among` of specs/ says.
pub fn found_number(found: Option<usize>) -> usize
    ensures { result ≡ found_number found }
{
    found.unwrap_or(0)
}

// The number of an own state; a table holds the places of the first own states' names.
pub fn own_number(text: &[u8], table: &[usize], own: Holding, word: &[u8]) -> usize
    requires { Filled text.now table.now 2 26 0 own.count own.rest }
    ensures { result ≡ own_number text.now word.now }
{
    found_number(number_of(text, table, own.count, own.rest, STATE, END, word))
}

// The number of an action of the state whose words stand at a place.
fn action_number(text: &[u8], at: usize, word: &[u8]) -> usize
    ensures { result ≡ number_among (names_from text.now 3 2 at) word.now }
{
    found_number(ahead(text, at, ACTION, STATE, word, 0))
}

// The first referrer ahead.
fn referrer_ahead(text: &[u8], at: usize) -> Refer
    ensures { Refers text.now at result }
{
    let mut here = at;
    // No count: a step is a word long.
    loop {
        let w = next_word(text, here);
        here = w.end;
        match w.kind {
            MOVE_TO => return Refer::MoveTo(name_ahead(text, here)),
            DO => return Refer::Do(name_ahead(text, here)),
            STAY | END => return Refer::Stay,
            _ => {}
        }
    }
}

// The record of a when clause, by the words from a place on, with n guard records before it.
fn put_when(
    text: &[u8],
    table: &[usize],
    own: Holding,
    here: usize,
    n: usize,
    out: &mut [u8],
    at: usize,
) -> usize
    requires { Filled text.now table.now 2 26 0 own.count own.rest }
    ensures { Puts (fours (when_at text.now here n ∷ [])) out.old at out.new result }
{
    let to = referrer_ahead(text, here);
    match to {
        Refer::MoveTo(name) => {
            let state = own_number(text, table, own, &text[name.start..name.end]);
            put_record(out, at, n, n / 256, 0, state)
        }
        Refer::Do(name) => {
            let action = action_number(text, here, &text[name.start..name.end]);
            put_record(out, at, n, n / 256, 1, action)
        }
        Refer::Stay => put_record(out, at, n, n / 256, 2, 0),
    }
}

// The body of when clauses of the text's class, from a place of the buffer on; the place behind it.
pub fn write_whens(text: &[u8], out: &mut [u8], at: usize) -> usize
    ensures { WritesWhens text.now out.old at out.new result }
{
    let mut table = [0usize; 64];
    let own = hold(text, 0, STATE, END, &mut table);
    let mut here = 0;
    let mut n = 0;
    let mut end = at;
    // No count: a step is a word long.
    loop {
        let w = next_word(text, here);
        let k = w.kind;
        if k == END {
            return end;
        }
        let before = n;
        here = w.end;
        n = guards_after(n, k);
        if k == WHEN {
            end = put_when(text, &table, own, here, before, out, end);
        }
    }
}
