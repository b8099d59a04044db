// The text of a guard, written from its records: the writer calls itself on each operand.
#![tactic(auto)]

ghost use Rattle.std.specs.Prelude.{◌≡◌};
ghost use Rattle.model.specs.Tree.{atom};
ghost use Rattle.pen.specs.Writing.{Puts};
ghost use Rattle.records.specs.GuardRecords.{guard_at, joined, operands};
ghost use Rattle.records.specs.Patterns.{pattern_as};
ghost use Rattle.records.specs.Records.{kind_as, operator_as};
ghost use Rattle.writings.specs.Layout.{quantifier_text, side_text, guard_text};
ghost use Rattle.guardtext.specs.GuardTexts.{opening, between, Writes, PutsGuard};

use lists::Lists;
use pen::put_bytes;
use records::guards::{GuardRecord, Kind, Operator, guard_record};
use records::kinds::Pattern;
use spelling::{put_kin, put_set};

// The quantifier of an atom.
fn quantifier(kind: Kind) -> &'static [u8]
    ensures { result.now ≡ quantifier_text (kind_as kind) }
{
    match kind {
        Kind::AnyIn | Kind::AnyNotIn => b"$ANY$",
        Kind::AllIn | Kind::AllNotIn => b"$ALL$",
    }
}

// The side of an atom: in the set or not.
fn side(kind: Kind) -> &'static [u8]
    ensures { result.now ≡ side_text (kind_as kind) }
{
    match kind {
        Kind::AnyIn | Kind::AllIn => b" in_state ",
        Kind::AnyNotIn | Kind::AllNotIn => b" not_in_state ",
    }
}

// An atom: in brackets its quantifier, its children, its side and its names.
fn put_atom(
    out: &mut [u8],
    at: usize,
    lists: Lists,
    kind: Kind,
    pattern: Pattern,
    set: u32,
) -> usize
    ensures { Puts (guard_text lists.entry.names.now lists.entry.classes.now (atom (kind_as kind) (pattern_as pattern) set)) out.old at out.new result }
{
    let a = put_bytes(out, at, b"( ");
    let b = put_bytes(out, a, quantifier(kind));
    let c = put_kin(out, b, lists.classes, pattern);
    let d = put_bytes(out, c, side(kind));
    let e = put_set(out, d, lists.names, set);
    put_bytes(out, e, b" )")
}

// What stands before the first operand.
fn opening(operator: Operator) -> &'static [u8]
    ensures { result.now ≡ opening operator }
{
    match operator {
        Operator::Both | Operator::Either => b"( ",
        Operator::Opposite => b"( not ",
    }
}

// What stands between two operands.
fn between(operator: Operator) -> &'static [u8]
    ensures { result.now ≡ between operator }
{
    match operator {
        Operator::Both => b" and ",
        Operator::Either => b" or ",
        Operator::Opposite => b"",
    }
}

// The guard that begins at record `from`, with at most `depth` operators on a path: the place behind its text and the record behind it, or
// none where the guard is broken.
#[cycle(put_from_put_operator)]
fn put_from(
    g: &[u8],
    from: usize,
    depth: usize,
    lists: Lists,
    out: &mut [u8],
    at: usize,
) -> Option<(usize, usize)>
    ensures { Writes lists.entry.names.now lists.entry.classes.now (guard_at depth g.now from) out.old at out.new result }
{
    match guard_record(g, from) {
        GuardRecord::Atom(kind, pattern, set) => Some((
            put_atom(out, at, lists, kind, pattern, set),
            from + 1,
        )),
        GuardRecord::Operator(operator) => {
            put_operator(g, from + 1, depth, operator, lists, out, at)
        }
        GuardRecord::Unknown => None,
    }
}

// An operator, whose operands begin at record `from`, left before right.
#[cycle(put_from_put_operator)]
fn put_operator(
    g: &[u8],
    from: usize,
    depth: usize,
    operator: Operator,
    lists: Lists,
    out: &mut [u8],
    at: usize,
) -> Option<(usize, usize)>
    ensures { Writes lists.entry.names.now lists.entry.classes.now (joined (operands depth g.now) from (operator_as operator)) out.old at out.new result }
{
    if depth == 0 {
        return None;
    }
    let a = put_bytes(out, at, opening(operator));
    let (b, next) = put_from(g, from, depth - 1, lists, out, a)?;
    if let Operator::Opposite = operator {
        return Some((put_bytes(out, b, b" )"), next));
    }
    let c = put_bytes(out, b, between(operator));
    let (d, end) = put_from(g, next, depth - 1, lists, out, c)?;
    Some((put_bytes(out, d, b" )"), end))
}

// The text of the guard that begins at a place, and the place behind it. At most 16 operators lie on one path.
pub fn put_guard(g: &[u8], place: usize, lists: Lists, out: &mut [u8], at: usize) -> usize
    ensures { PutsGuard g.now place lists.entry.names.now lists.entry.classes.now out.old at out.new result }
{
    match put_from(g, place, 16, lists, out, at) {
        Some((end, _)) => end,
        None => at,
    }
}
