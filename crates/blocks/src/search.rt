// The search: blocks rising, those in which no lane counts skipped; the first with a loop stops it.
ghost use Rattle.std.specs.Prelude.{◌≡◌, ◌≤◌, max};
ghost use Rattle.blocks.specs.Search.{CellsOf, Tables, BlockIs, Ready, Finds, Found};

use crate::clauses::read_clauses;
use accepted::held::{GUARDS, STATEMENTS, Sheet};
use arrows::levels::count_moves;
use arrows::sorting::{Clauses, sort_lanes};
use configurations::Cells;
use lanes::counting::{Present, counted_lanes, present_masks};
use lanes::words::lowest_lane;
use truths::filling::fill_words;
use truths::plans::{Plan, plan_guards};

// What the 64 configurations from `base` on do: how many moves they make at most, or the lanes that move for ever.
fn block(
    plan: &Plan,
    clauses: &Clauses,
    statements: &[u8],
    there: Present,
    base: u32,
    words: &mut [u64],
) -> Result<usize, u64>
    requires { Tables plan.now clauses.now statements.now there base words.old }
    ensures { BlockIs plan.now clauses.now statements.now there base result }
{
    let counted = counted_lanes(there, base);
    if counted == 0 {
        return Ok(0);
    }
    fill_words(
        plan.count,
        &plan.kinds,
        &plan.sizes,
        &plan.masks,
        &plan.lows,
        base,
        words,
    );
    let mut table = [0u64; 1280];
    sort_lanes(clauses, statements, words, counted, &mut table);
    count_moves(clauses.states, &table, counted)
}

// The blocks of all configurations of n names, rising: the largest number of moves, or the smallest configuration with a loop.
fn try_blocks(
    plan: &Plan,
    clauses: &Clauses,
    statements: &[u8],
    there: Present,
    n: usize,
) -> Result<usize, u32>
    requires { Ready plan.now clauses.now statements.now there × (n ≤ 20) }
    ensures { Finds plan.now clauses.now statements.now there n result }
{
    let all: u32 = 1 << n;
    let mut words = [0u64; 1024];
    let mut longest = 0;
    for base in (0..all).step_by(64) {
        match block(plan, clauses, statements, there, base, &mut words) {
            Err(w) => {
                let k = base + lowest_lane(w);
                return Err(k);
            }
            Ok(m) => longest = longest.max(m),
        }
    }
    Ok(longest)
}

// The search on an accepted sheet: its tables made once, then the blocks.
pub fn search(sheet: Sheet, present: u8, cells: Cells) -> Result<usize, u32>
    requires { CellsOf sheet.bytes.now present cells }
    ensures { Found sheet.entry.bytes.now present result }
{
    let plan = plan_guards(sheet.body(GUARDS), cells);
    let clauses = read_clauses(sheet);
    let statements = sheet.body(STATEMENTS);
    try_blocks(
        &plan,
        &clauses,
        statements,
        present_masks(cells, present),
        cells.count,
    )
}
