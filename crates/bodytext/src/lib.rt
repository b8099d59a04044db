// The statements of an action clause as text, line by line, written into a lent buffer from a place on; the place behind them is answered.
#![tactic(auto)]

ghost use Rattle.std.specs.Prelude.{◌≡◌};
ghost use Rattle.records.specs.Patterns.{pattern_as};
ghost use Rattle.bodies.specs.StatementReaders.{statement_record};
ghost use Rattle.bodies.specs.declared.statements.StatementRecord.TheVariants.{If};
ghost use Rattle.pen.specs.Writing.{Puts};
ghost use Rattle.lists.specs.Lent.{lists_of};
ghost use Rattle.writings.specs.Layout.{line};
ghost use Rattle.bodytext.specs.BodyText.{do_line, move_line, PutsHead, PutsPart, PutsIf, Levelled};

use bodies::statements::{
    Branch, StatementRecord, behind_statement, else_part, statement_record, then_part,
};
use guardtext::put_guard;
use lists::Lists;
use model::OwnState;
use pen::put_bytes;
use records::kinds::Pattern;
use spelling::{put_indent, put_kin, put_name};

// A line of these words.
pub fn put_line(out: &mut [u8], at: usize, level: usize, words: &[u8]) -> usize
    ensures { Puts (line level words.now) out.old at out.new result }
{
    let a = put_indent(out, at, level);
    let b = put_bytes(out, a, words);
    put_bytes(out, b, b"\n")
}

// A do: its command, and the children that it is sent to.
fn put_do(
    out: &mut [u8],
    at: usize,
    level: usize,
    lists: Lists,
    command: u8,
    pattern: Pattern,
) -> usize
    ensures { Puts (do_line level lists.entry.commands.now lists.entry.classes.now command (pattern_as pattern)) out.old at out.new result }
{
    let a = put_indent(out, at, level);
    let b = put_bytes(out, a, b"do ");
    let c = put_name(out, b, lists.commands, 32, command as usize);
    let d = put_bytes(out, c, b" $ALL$");
    let e = put_kin(out, d, lists.classes, pattern);
    put_bytes(out, e, b"\n")
}

// A move_to: its own state.
fn put_move(out: &mut [u8], at: usize, level: usize, own: &[u8], to: OwnState) -> usize
    ensures { Puts (move_line level own.now to.0) out.old at out.new result }
{
    let a = put_indent(out, at, level);
    let b = put_bytes(out, a, b"move_to ");
    let c = put_name(out, b, own, 32, to.0 as usize);
    put_bytes(out, c, b"\n")
}

// The line that an if begins with: its guard begins at a place.
fn put_head(g: &[u8], place: usize, level: usize, lists: Lists, out: &mut [u8], at: usize) -> usize
    ensures { PutsHead g.now place level lists.entry.names.now lists.entry.classes.now out.old at out.new result }
{
    let a = put_indent(out, at, level);
    let b = put_bytes(out, a, b"if ");
    let c = put_guard(g, place, lists, out, b);
    let d = put_bytes(out, c, b" then");
    put_bytes(out, d, b"\n")
}

// A list of statements at a level, one after the other: calls `put_if` on an if, which calls the list on its parts. The list is gone through
// in a loop, so that the stack holds nested ifs alone.
#[cycle(put_if_put_part)]
pub fn put_part(
    g: &[u8],
    part: &[u8],
    level: usize,
    own: &[u8],
    lists: Lists,
    out: &mut [u8],
    at: usize,
) -> usize
    requires { Levelled level part.now }
    ensures { PutsPart g.now part.now level own.now (lists_of lists.entry) out.old at out.new result }
{
    let mut rest = part;
    let mut end = at;
    // No count: a step is a statement long.
    loop {
        let front = statement_record(rest);
        let next = match front {
            StatementRecord::Do(command, pattern) => {
                put_do(out, end, level, lists, command, pattern)
            }
            StatementRecord::MoveTo(to) => put_move(out, end, level, own, to),
            StatementRecord::If(branch) => put_if(g, branch, rest, level, own, lists, out, end),
            StatementRecord::Unknown => return end,
        };
        rest = behind_statement(front, rest);
        end = next;
    }
}

// The if at the front of a list: its line, its then-part, its else-part where there is one, and its end.
#[cycle(put_if_put_part)]
fn put_if(
    g: &[u8],
    branch: Branch,
    part: &[u8],
    level: usize,
    own: &[u8],
    lists: Lists,
    out: &mut [u8],
    at: usize,
) -> usize
    requires levelled { Levelled level part.now }
    requires part_value { statement_record part.now ≡ If branch }
    ensures { PutsIf g.now part.now level own.now (lists_of lists.entry) out.old at out.new result }
{
    let a = put_head(g, branch.guard as usize, level, lists, out, at);
    let first = then_part(branch, part);
    let b = put_part(g, first, level + 1, own, lists, out, a);
    let second = else_part(branch, part);
    if second.len() < 8 {
        return put_line(out, b, level, b"endif");
    }
    let c = put_line(out, b, level, b"else");
    let d = put_part(g, second, level + 1, own, lists, out, c);
    put_line(out, d, level, b"endif")
}
