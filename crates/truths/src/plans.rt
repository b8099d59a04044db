// What is made of the guard records once a question.
ghost use Rattle.std.specs.Prelude.{◌≡◌, ◌+◌, ◌<◌, ◌≤◌, length, get_or};
ghost use Rattle.records.specs.Records.{kind_as};
ghost use Rattle.configurations.specs.Cells.{cells_of, AllSmall};
ghost use Rattle.lanes.specs.Masks.{inside};
ghost use Rattle.truths.specs.Plans.{atom_number, operator_number, record_number, record_mask, operator_size, record_size, Planned};

use configurations::Cells;
use lanes::masks::{cells_mask, low_word};
use records::guards::{GuardRecord, Kind, Operator, guard_record};
use records::words::in_eights;

// How the word of a record is made: its mask is met, or is not met; both operands, either, or the opposite of one. Numbers, as `word_of` of
// specs/ takes them.
pub const MET: u8 = 0;

pub const UNMET: u8 = 1;

pub const BOTH: u8 = 2;

pub const EITHER: u8 = 3;

pub const OPPOSITE: u8 = 4;

// Of each record: how its word is made, how many records its guard has, the mask of an atom and its word in the first block; a list of each,
// as `Planned` and `Filled` of specs/ have them.
#[derive(Clone, Copy)]
pub struct Plan {
    pub kinds: [u8; 1024],
    pub sizes: [u16; 1024],
    pub masks: [u32; 1024],
    pub lows: [u64; 1024],
    pub count: usize,
}

// How the word of an atom is made.
fn atom_number(kind: Kind) -> u8
    ensures { result ≡ atom_number kind }
{
    match kind {
        Kind::AnyIn | Kind::AnyNotIn => MET,
        Kind::AllIn | Kind::AllNotIn => UNMET,
    }
}

// How the word of an operator is made.
fn operator_number(operator: Operator) -> u8
    ensures { result ≡ operator_number operator }
{
    match operator {
        Operator::Both => BOTH,
        Operator::Either => EITHER,
        Operator::Opposite => OPPOSITE,
    }
}

// How the word of a record is made; one of no known kind, which no accepted sheet has, has none.
fn record_number(x: GuardRecord) -> u8
    ensures { result ≡ record_number x }
{
    match x {
        GuardRecord::Atom(kind, _, _) => atom_number(kind),
        GuardRecord::Operator(operator) => operator_number(operator),
        GuardRecord::Unknown => 5,
    }
}

// An atom looks for a child whose name is in the set, or for one whose name is not in it: ALL is the opposite of ANY with the opposite fact.
fn looks_inside(kind: Kind) -> bool
    ensures { result ≡ inside (kind_as kind) }
{
    matches!(kind, Kind::AnyIn | Kind::AllNotIn)
}

// The mask of an atom; 0 of another record.
fn record_mask(x: GuardRecord, cells: Cells) -> u32
    requires { (cells.count ≤ 20) × AllSmall cells }
    ensures { result ≡ record_mask (cells_of cells) x }
{
    match x {
        GuardRecord::Atom(kind, pattern, set) => cells_mask(
            cells,
            pattern,
            set,
            looks_inside(kind),
        ),
        GuardRecord::Operator(_) | GuardRecord::Unknown => 0,
    }
}

// The size that is held for a record; 0 past the table.
pub fn size_at(sizes: &[u16], j: usize) -> usize
    ensures { (result ≡ get_or sizes.now j 0) × (result < 65536) }
{
    usize::from(sizes.get(j).copied().unwrap_or(0))
}

// How many records the guard of an operator at record i has: its right operand begins where its left one ends.
fn operator_size(operator: Operator, i: usize, sizes: &[u16]) -> usize
    requires { i < 1024 }
    ensures { result ≡ operator_size operator i sizes.now }
{
    let left = size_at(sizes, i + 1);
    let right = size_at(sizes, i + 1 + left);
    match operator {
        Operator::Both | Operator::Either => 1 + left + right,
        Operator::Opposite => 1 + left,
    }
}

// How many records the guard at record i has, from the sizes of the guards behind it.
fn record_size(x: GuardRecord, i: usize, sizes: &[u16]) -> usize
    requires { i < 1024 }
    ensures { result ≡ record_size x i sizes.now }
{
    match x {
        GuardRecord::Operator(operator) => operator_size(operator, i, sizes),
        GuardRecord::Atom(..) | GuardRecord::Unknown => 1,
    }
}

// The plan of the guard records, from the last to the first.
pub fn plan_guards(g: &[u8], cells: Cells) -> Plan
    requires { (length g.now ≤ 8192) × ((cells.count ≤ 20) × AllSmall cells) }
    ensures { Planned g.now (cells_of cells) result }
{
    let count = in_eights(g);
    let mut kinds = [0u8; 1024];
    let mut sizes = [0u16; 1024];
    let mut masks = [0u32; 1024];
    let mut lows = [0u64; 1024];
    for i in (0..count).rev() {
        let record = guard_record(g, i);
        let size = record_size(record, i, &sizes);
        let mask = record_mask(record, cells);
        sizes[i] = size as u16;
        kinds[i] = record_number(record);
        masks[i] = mask;
        lows[i] = low_word(mask);
    }
    Plan {
        kinds,
        sizes,
        masks,
        lows,
        count,
    }
}
