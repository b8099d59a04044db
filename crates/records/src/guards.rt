// Guard records: what each is, their layout, and where a guard ends.
ghost use Rattle.std.specs.Prelude.{◌≡◌};
ghost use Rattle.records.specs.GuardRecords.{pattern_right, record_right, atom_right, operator_right, atom_kind, operator_of, record_of, guard_record, guard_at, guard_from, is_read};
ghost use Rattle.records.specs.Records.{kind_as, operator_as, record_as};
ghost use Rattle.records.specs.Ends.{end_of};

use crate::kinds::{Pattern, pattern_at};
use crate::words::{byte_at, record_at, u16_at, u32_at};

// The test that an atom makes.
#[derive(Clone, Copy)]
pub enum Kind {
    AnyIn,
    AnyNotIn,
    AllIn,
    AllNotIn,
}

// An operator on guards: and, or, not.
#[derive(Clone, Copy)]
pub enum Operator {
    Both,
    Either,
    Opposite,
}

// What a guard record is.
#[derive(Clone, Copy)]
pub enum GuardRecord {
    Atom(Kind, Pattern, u32),
    Operator(Operator),
    Unknown,
}

// The test of an atom of kind 0 to 3.
fn atom_kind(kind: usize) -> Kind
    ensures { kind_as result ≡ atom_kind kind }
{
    match kind {
        0 => Kind::AnyIn,
        1 => Kind::AnyNotIn,
        2 => Kind::AllIn,
        _ => Kind::AllNotIn,
    }
}

// The operator of kind 4 to 6.
fn operator_of(kind: usize) -> Operator
    ensures { operator_as result ≡ operator_of kind }
{
    match kind {
        4 => Operator::Both,
        5 => Operator::Either,
        _ => Operator::Opposite,
    }
}

// What the record at the front is: one match over its kind.
#[tactic(auto, unfolding(crate::specs::GuardRecords::record_of))]
fn record_of(r: &[u8]) -> GuardRecord
    ensures { record_as result ≡ record_of r.now }
{
    let kind = byte_at(r, 0);
    match kind {
        0..=3 => GuardRecord::Atom(atom_kind(kind), pattern_at(r, 1), u32_at(r, 4)),
        4..=6 => GuardRecord::Operator(operator_of(kind)),
        _ => GuardRecord::Unknown,
    }
}

// What guard record i is; unknown past the end.
#[tactic(auto, unfolding(crate::specs::GuardRecords::guard_record))]
pub fn guard_record(g: &[u8], i: usize) -> GuardRecord
    ensures { record_as result ≡ guard_record g.now i }
{
    if g.len() / 8 <= i {
        return GuardRecord::Unknown;
    }
    record_of(record_at(g, i))
}

// A pattern is a child class below K, or 255 for all children.
pub fn pattern_ok(classes: usize, p: usize) -> bool
    ensures { result ≡ pattern_right classes p }
{
    (p < classes) | (p == 255)
}

// An atom's record: the pattern, two zero bytes, a name set that is not zero.
fn atom_ok(classes: usize, r: &[u8]) -> bool
    ensures { result ≡ atom_right classes r.now }
{
    let pattern = pattern_ok(classes, byte_at(r, 1));
    let zeros = u16_at(r, 2);
    let names = u32_at(r, 4);
    pattern & ((zeros == 0) & (names != 0))
}

// An operator's record: bytes 1 to 7 are zero.
fn operator_ok(r: &[u8]) -> bool
    ensures { result ≡ operator_right r.now }
{
    let pattern = byte_at(r, 1);
    let zeros = u16_at(r, 2);
    let names = u32_at(r, 4);
    (pattern == 0) & ((zeros == 0) & (names == 0))
}

// A record keeps its layout.
#[tactic(auto, unfolding(crate::specs::GuardRecords::record_of))]
pub fn record_ok(classes: usize, r: &[u8]) -> bool
    ensures { result ≡ record_right classes r.now }
{
    let record = record_of(r);
    match record {
        GuardRecord::Atom(_, _, _) => atom_ok(classes, r),
        GuardRecord::Operator(_) => operator_ok(r),
        GuardRecord::Unknown => false,
    }
}

// Where the guard that begins at record `from` ends, with at most `depth` operators on a path: the record after it, or it is broken.
pub fn guard_end(g: &[u8], from: usize, depth: usize) -> Option<usize>
    ensures { result ≡ end_of (guard_at depth g.now from) }
{
    let record = guard_record(g, from);
    match record {
        GuardRecord::Atom(_, _, _) => Some(from + 1),
        GuardRecord::Operator(operator) => {
            if depth == 0 {
                return None;
            }
            let next = guard_end(g, from + 1, depth - 1)?;
            match operator {
                Operator::Both | Operator::Either => guard_end(g, next, depth - 1),
                Operator::Opposite => Some(next),
            }
        }
        GuardRecord::Unknown => None,
    }
}

// A guard begins at a place and is not broken; at most 16 operators lie on one path.
pub fn guard_ok(g: &[u8], place: usize) -> bool
    ensures { result ≡ is_read (guard_from g.now place) }
{
    guard_end(g, place, 16).is_some()
}
