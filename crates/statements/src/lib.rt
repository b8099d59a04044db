// The body of statements: one record for each do, move_to and if behind an action:, by the words ahead of it.
#![tactic(auto)]

ghost use Rattle.std.specs.Prelude.{◌≡◌, [], ◌∷◌, ◌/◌, ◌<◌, ◌≤◌, drop};
ghost use Rattle.words.specs.Scanning.{tokens_from};
ghost use Rattle.own.specs.Held.{Filled};
ghost use Rattle.encoding.specs.Records.{four, eight, zeros, eights};
ghost use Rattle.pen.specs.Writing.{Puts};
ghost use Rattle.whens.specs.Ahead.{low8};
ghost use Rattle.whens.specs.Whens.{own_number};
ghost use Rattle.statements.specs.Parts.{else_at, PartEnds};
ghost use Rattle.statements.specs.Statements.{is_statement, count_after, depth_after, on_after, kin_ahead, move_ahead, do_ahead, if_ahead, number_of, statement_at, WritesStatements};

use kinds::{ACTION, CHILDREN, DO, ELSE, END, ENDIF, IF, MOVE_TO, STATE};
use lists::{Lists, number_in};
use own::{Holding, hold};
use whens::{found_number, guards_after, name_ahead, own_number, put_record};
use words::next_word;

// The number of a name in a list of records of that many bytes; 0 where it has none.
fn listed_number(list: &[u8], size: usize, word: &[u8]) -> usize
    requires { 32 ≤ size }
    ensures { result ≡ number_of size list.now word.now }
{
    found_number(number_in(list, size, word))
}

// A word of this kind begins a statement.
fn is_statement(kind: u8) -> bool
    ensures { result ≡ is_statement kind }
{
    matches!(kind, MOVE_TO | DO | IF)
}

// The number of statements before the next word, where n stand before a word of that kind.
fn count_after(n: usize, kind: u8) -> usize
    requires { n < 18446744073709551615 }
    ensures { result ≡ count_after n kind }
{
    if is_statement(kind) {
        return n + 1;
    }
    n
}

// How many ifs are open before the next word, where d are before a word of that kind.
fn depth_after(d: usize, kind: u8) -> usize
    requires { d < 18446744073709551615 }
    ensures { result ≡ depth_after d kind }
{
    match kind {
        IF => d + 1,
        ENDIF => d.saturating_sub(1),
        _ => d,
    }
}

// A part that is ahead: its statements, the word that ends it, and the place behind that.
#[derive(Clone, Copy)]
struct PartEnd {
    size: usize,
    kind: u8,
    end: usize,
}

// The part from a place on, up to the else or endif that ends it.
fn part_ahead(text: &[u8], at: usize) -> PartEnd
    ensures { PartEnds text.now at result.size result.kind result.end }
{
    let mut here = at;
    let mut depth = 0;
    let mut n = 0;
    // No count: a step is a word long.
    loop {
        let w = next_word(text, here);
        let k = w.kind;
        here = w.end;
        if (((k == ELSE) | (k == ENDIF)) & (depth == 0)) | (k == END) {
            return PartEnd {
                size: n,
                kind: k,
                end: here,
            };
        }
        depth = depth_after(depth, k);
        n = count_after(n, k);
    }
}

// The size of the else-part behind a part that a word of that kind ends.
fn else_size(text: &[u8], kind: u8, end: usize) -> usize
    ensures { result ≡ else_at text.now kind end }
{
    if kind != ELSE {
        return 0;
    }
    part_ahead(text, end).size
}

// The pattern of the kin that is next.
fn kin_ahead(text: &[u8], classes: &[u8], at: usize) -> usize
    ensures { result ≡ kin_ahead (number_of 36 classes.now) (tokens_from text.now at) }
{
    let w = next_word(text, at);
    if w.kind == CHILDREN {
        // 255, the byte of a sheet for all children.
        return 255;
    }
    let name = name_ahead(text, at);
    listed_number(classes, 36, &text[name.start..name.end])
}

// The pattern of the kin that stands behind two words.
fn kin_behind(text: &[u8], classes: &[u8], at: usize) -> usize
    ensures { result ≡ kin_ahead (number_of 36 classes.now) (drop 2 (tokens_from text.now at)) }
{
    let name = next_word(text, at);
    if name.kind == END {
        return 0;
    }
    let all = next_word(text, name.end);
    if all.kind == END {
        return 0;
    }
    kin_ahead(text, classes, all.end)
}

// A record of three numbers, each cut to a byte, and five zeros.
fn put_short(out: &mut [u8], at: usize, a: usize, b: usize, c: usize) -> usize
    ensures { Puts (eights (low8 (eight (four a b c 0) zeros) ∷ [])) out.old at out.new result }
{
    let middle = put_record(out, at, a, b, c, 0);
    put_record(out, middle, 0, 0, 0, 0)
}

// The record of a move_to whose name stands at a place.
fn put_move(
    text: &[u8],
    table: &[usize],
    own: Holding,
    here: usize,
    out: &mut [u8],
    at: usize,
) -> usize
    requires { Filled text.now table.now 2 26 0 own.count own.rest }
    ensures { Puts (eights (move_ahead (own_number text.now) (tokens_from text.now here) ∷ [])) out.old at out.new result }
{
    let name = name_ahead(text, here);
    let state = own_number(text, table, own, &text[name.start..name.end]);
    put_short(out, at, 1, state, 0)
}

// The record of a do whose command stands at a place.
fn put_do(text: &[u8], lists: Lists, here: usize, out: &mut [u8], at: usize) -> usize
    ensures { Puts (eights (do_ahead (number_of 32 lists.entry.commands.now) (number_of 36 lists.entry.classes.now) (tokens_from text.now here) ∷ [])) out.old at out.new result }
{
    let name = name_ahead(text, here);
    let command = listed_number(lists.commands, 32, &text[name.start..name.end]);
    let pattern = kin_behind(text, lists.classes, here);
    put_short(out, at, 0, command, pattern)
}

// The record of an if whose guard stands at a place, with n guard records before it.
fn put_if(text: &[u8], here: usize, n: usize, out: &mut [u8], at: usize) -> usize
    ensures { Puts (eights (if_ahead n (tokens_from text.now here) ∷ [])) out.old at out.new result }
{
    let part = part_ahead(text, here);
    let a = part.size;
    let b = else_size(text, part.kind, part.end);
    let middle = put_record(out, at, 2, 0, n, n / 256);
    put_record(out, middle, a, a / 256, b, b / 256)
}

// The record of the statement of a first word of that kind, by the words from a place on, with n guard records before it.
fn put_statement(
    text: &[u8],
    lists: Lists,
    table: &[usize],
    own: Holding,
    kind: u8,
    here: usize,
    n: usize,
    out: &mut [u8],
    at: usize,
) -> usize
    requires { Filled text.now table.now 2 26 0 own.count own.rest }
    ensures { Puts (eights (statement_at text.now lists.entry.commands.now lists.entry.classes.now here n kind ∷ [])) out.old at out.new result }
{
    match kind {
        MOVE_TO => put_move(text, table, own, here, out, at),
        DO => put_do(text, lists, here, out, at),
        _ => put_if(text, here, n, out, at),
    }
}

// Statements stand behind an action: and before the next state:
fn on_after(on: bool, kind: u8) -> bool
    ensures { result ≡ on_after on kind }
{
    match kind {
        ACTION => true,
        STATE => false,
        _ => on,
    }
}

// The body of statements of the text's class, from a place of the buffer on; the place behind it.
pub fn write_statements(text: &[u8], lists: Lists, out: &mut [u8], at: usize) -> usize
    ensures { WritesStatements text.now lists.entry.commands.now lists.entry.classes.now out.old at out.new result }
{
    let mut table = [0usize; 64];
    let own = hold(text, 0, STATE, END, &mut table);
    let mut here = 0;
    let mut on = false;
    let mut n = 0;
    let mut end = at;
    // No count: a step is a word long.
    loop {
        let w = next_word(text, here);
        let k = w.kind;
        if k == END {
            return end;
        }
        let before = n;
        let first = on & is_statement(k);
        here = w.end;
        n = guards_after(n, k);
        on = on_after(on, k);
        if first {
            end = put_statement(text, lists, &table, own, k, here, before, out, end);
        }
    }
}
