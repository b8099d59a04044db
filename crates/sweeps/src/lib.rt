// Statements run on a set of lanes: those that a move_to takes go into the table of a block, word q * 32 + t for a move from state q to state t,
// and the others are left. What is swept is in specs/Sweeps.antt.
#![tactic(auto)]

ghost use Rattle.std.specs.Prelude.{◌≡◌, ◌<◌, length};
ghost use Rattle.bodies.specs.StatementReaders.{statement_record};
ghost use Rattle.bodies.specs.declared.statements.StatementRecord.TheVariants.{If};
ghost use Rattle.sweeps.specs.Sweeps.{Adds, SweepsPart, SweepsIf};

use bodies::statements::{
    Branch, StatementRecord, behind_statement, else_part, statement_record, then_part,
};
use lanes::words::word_at;

// The lanes move from state q to state t.
fn add_lanes(table: &mut [u64], q: usize, t: usize, lanes: u64)
    requires { (q < 32) × (length table.old ≡ 1280) }
    ensures { Adds q t lanes table.old table.new }
{
    if t < 32 {
        let at = q * 32 + t;
        table[at] |= lanes;
    }
}

// Runs a list of statements of state q on the lanes of the mask, and gives those that are left: one statement after the other, as long as a
// lane is left.
#[cycle(sweep_if_sweep_list)]
pub fn sweep_list(words: &[u64], part: &[u8], q: usize, mask: u64, table: &mut [u64]) -> u64
    requires { (q < 32) × (length table.old ≡ 1280) }
    ensures { SweepsPart words.now part.now q mask table.old table.new result }
{
    let mut rest = part;
    let mut left = mask;
    while left != 0 {
        let front = statement_record(rest);
        match front {
            StatementRecord::Do(..) => {}
            StatementRecord::MoveTo(t) => {
                add_lanes(table, q, t.0 as usize, left);
                return 0;
            }
            StatementRecord::If(branch) => {
                left = sweep_if(words, branch, rest, q, left, table);
            }
            StatementRecord::Unknown => return left,
        }
        rest = behind_statement(front, rest);
    }
    0
}

// Runs the if at the front of a list: its then-part on the lanes in which the guard is true, its else-part on the others.
#[cycle(sweep_if_sweep_list)]
fn sweep_if(
    words: &[u64],
    branch: Branch,
    part: &[u8],
    q: usize,
    mask: u64,
    table: &mut [u64],
) -> u64
    requires q_bound { (q < 32) × (length table.old ≡ 1280) }
    requires part_value { statement_record part.now ≡ If branch }
    ensures { SweepsIf words.now part.now q mask table.old table.new result }
{
    let word = word_at(words, branch.guard as usize);
    let first = sweep_list(words, then_part(branch, part), q, mask & word, table);
    let second = sweep_list(words, else_part(branch, part), q, mask & !word, table);
    first | second
}
