// The configuration that the search found, its list and one name set per class: each state's turn is taken once, and the moves are followed
// from every state, until one comes back.
ghost use Rattle.std.specs.Prelude.{◌≡◌, ◌<◌, ◌≤◌};
ghost use Rattle.model.specs.Moves.{returns_soon};
ghost use Rattle.sheet.specs.Reading.{class_of};
ghost use Rattle.configurations.specs.Configurations.{chosen};
ghost use Rattle.configurations.specs.Cells.{cells_of, AllSmall};
ghost use Rattle.loops.specs.Chase.{table_next, MovesTo, Tabulates, smallest, returning_state};

use crate::cells::{spread, write_list};
use accepted::held::Sheet;
use configurations::Cells;
use model::OwnState;
use phases::{Turn, turn_from};
use running::Crew;

// Where each state's next move leads; 255 where it makes none, as `leads` of specs/ reads a byte.
#[derive(Clone, Copy)]
pub struct Table {
    pub to: [u8; 32],
}

// Where the next move from state q leads; 255 where none is made. What a DO sends is not kept.
fn next_from(sheet: Sheet, crew: Crew, q: OwnState) -> u8
    ensures { MovesTo sheet.entry.bytes.now crew.entry.list.now q.0 result }
{
    let mut unread = [0u8; 1];
    let turned = turn_from(sheet, crew, q, &mut unread, 0);
    match turned.turn {
        Turn::Moves(t) => t.0,
        Turn::Stops(_) => 255,
    }
}

// The table of moves: each state's turn is taken once.
pub fn tabulate(sheet: Sheet, crew: Crew) -> Table
    ensures { Tabulates sheet.entry.bytes.now crew.entry.list.now result }
{
    let mut to = [255u8; 32];
    for q in 0..sheet.state_count() {
        to[q] = next_from(sheet, crew, OwnState(q as u8));
    }
    Table { to }
}

// State q comes back to itself by at most n moves.
fn comes_back(table: Table, n: usize, q: usize) -> bool
    requires { (n ≤ 32) × (q < n) }
    ensures { result ≡ returns_soon (table_next table.to) n q }
{
    let mut at = q;
    for _ in 0..n {
        if 32 <= at {
            return false;
        }
        let next = table.to[at] as usize;
        if next == 255 {
            return false;
        }
        if next == q {
            return true;
        }
        at = next;
    }
    false
}

// The smallest state that returns to itself; 0 where none does.
pub fn smallest_returning(table: Table, n: usize) -> OwnState
    requires { n ≤ 32 }
    ensures { result.0 ≡ smallest n (returns_soon (table_next table.to) n) }
{
    for q in 0..n {
        if comes_back(table, n, q) {
            return OwnState(q as u8);
        }
    }
    OwnState(0)
}

// The smallest own state that returns to itself in configuration k; 0 where none does.
pub fn returning_in(sheet: Sheet, cells: Cells, k: u32) -> OwnState
    requires { (cells.count ≤ 20) × AllSmall cells }
    ensures { result.0 ≡ returning_state (class_of sheet.entry.bytes.now) (chosen (cells_of cells) k) }
{
    let sets = spread(cells, k);
    let mut list = [0u8; 40];
    let n = write_list(cells, k, &mut list);
    let crew = Crew {
        list: &list[0..n],
        sets,
    };
    smallest_returning(tabulate(sheet, crew), sheet.state_count())
}
