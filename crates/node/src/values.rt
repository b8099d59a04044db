// The evaluator of guards on name sets: it calls itself on each operand.
ghost use Rattle.std.specs.Prelude.{◌≡◌};
ghost use Rattle.records.specs.GuardRecords.{guard_at, guard_from, joined, operands};
ghost use Rattle.records.specs.Patterns.{pattern_as};
ghost use Rattle.records.specs.Records.{kind_as, operator_as};
ghost use Rattle.node.specs.Sets.{atom_in};
ghost use Rattle.node.specs.Values.{value_of, truth_of};

use children::crews::occupied_names;
use records::guards::{GuardRecord, Kind, Operator, guard_record};
use records::kinds::Pattern;

// The truth of an atom, by mask: what is occupied in the pattern, met with the set.
fn atom_holds(kind: Kind, pattern: Pattern, set: u32, sets: [u32; 8]) -> bool
    ensures { result ≡ atom_in sets (kind_as kind) (pattern_as pattern) set }
{
    let occupied = occupied_names(sets, pattern);
    let both = occupied & set;
    match kind {
        Kind::AnyIn => both != 0,
        Kind::AnyNotIn => both != occupied,
        Kind::AllIn => both == occupied,
        Kind::AllNotIn => both == 0,
    }
}

// The truth of the guard that begins at record `from`, with at most `depth` operators on a path, and the record after it; or it is broken.
#[cycle(guard_holds_operator_holds)]
pub fn guard_holds(g: &[u8], from: usize, depth: usize, sets: [u32; 8]) -> Option<(bool, usize)>
    ensures { result ≡ value_of sets (guard_at depth g.now from) }
{
    let record = guard_record(g, from);
    match record {
        GuardRecord::Atom(kind, pattern, set) => {
            Some((atom_holds(kind, pattern, set, sets), from + 1))
        }
        GuardRecord::Operator(operator) => operator_holds(g, from + 1, depth, operator, sets),
        GuardRecord::Unknown => None,
    }
}

// The truth of an operator, whose operands begin at record `from`, left before right.
#[cycle(guard_holds_operator_holds)]
fn operator_holds(
    g: &[u8],
    from: usize,
    depth: usize,
    operator: Operator,
    sets: [u32; 8],
) -> Option<(bool, usize)>
    ensures { result ≡ value_of sets (joined (operands depth g.now) from (operator_as operator)) }
{
    if depth == 0 {
        return None;
    }
    let (left, next) = guard_holds(g, from, depth - 1, sets)?;
    if let Operator::Opposite = operator {
        return Some((!left, next));
    }
    let (right, end) = guard_holds(g, next, depth - 1, sets)?;
    match operator {
        Operator::Both => Some((left & right, end)),
        _ => Some((left | right, end)),
    }
}

// The truth of the guard that begins at a place; false where none does. At most 16 operators lie on one path.
pub fn guard_true(g: &[u8], place: usize, sets: [u32; 8]) -> bool
    ensures { result ≡ truth_of sets (guard_from g.now place) }
{
    match guard_holds(g, place, 16, sets) {
        Some((holds, _)) => holds,
        None => false,
    }
}
