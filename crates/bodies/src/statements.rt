// Statement records: what a record is, and the layout, the parts and the depth of an action clause's statements.
ghost use Rattle.std.specs.Prelude.{◌≡◌, ◌*◌, ◌<◌, ◌≤◌, length, take, drop};
ghost use Rattle.records.specs.Bytes.{u16, records_from};
ghost use Rattle.bodies.specs.StatementRecords.{do_right, move_right};
ghost use Rattle.bodies.specs.StatementReaders.{statement_record, records_beside, then_part, else_part, behind_statement};
ghost use Rattle.bodies.specs.PartChecks.{part_right, statement_right};
ghost use Rattle.bodies.specs.Clauses.{statement_bytes};

use crate::clauses::{count_at, count_sum};
use model::OwnState;
use records::guards::{guard_ok, pattern_ok};
use records::kinds::{Pattern, own_state_at, pattern_at};
use records::words::{byte_at, narrow_at, u16_at, u32_at};

// An if: the place of its guard, and how many records its then-part and its else-part have.
#[derive(Clone, Copy)]
pub struct Branch {
    pub guard: u16,
    pub thens: u16,
    pub elses: u16,
}

// What a statement record is: do with its command and pattern, move_to with its own state, if.
#[derive(Clone, Copy)]
pub enum StatementRecord {
    Do(u8, Pattern),
    MoveTo(OwnState),
    If(Branch),
    Unknown,
}

// The two bytes at a place of a record, in their own width.
fn short_at(b: &[u8], at: usize) -> u16
    requires { at < 8 }
    ensures { result ≡ u16 b.now at }
{
    u16_at(b, at) as u16
}

// The record at the front of a list of statements; Unknown where there is none.
#[tactic(auto, unfolding(crate::specs::StatementReaders::statement_record))]
pub fn statement_record(part: &[u8]) -> StatementRecord
    ensures { result ≡ statement_record part.now }
{
    if part.len() < 8 {
        return StatementRecord::Unknown;
    }
    let kind = byte_at(part, 0);
    match kind {
        0 => StatementRecord::Do(narrow_at(part, 1), pattern_at(part, 2)),
        1 => StatementRecord::MoveTo(own_state_at(part, 1)),
        2 => StatementRecord::If(Branch {
            guard: short_at(part, 2),
            thens: short_at(part, 4),
            elses: short_at(part, 6),
        }),
        _ => StatementRecord::Unknown,
    }
}

// How many records belong to a statement beside its own: an if's two parts.
fn records_beside(front: StatementRecord) -> usize
    ensures count { result ≡ records_beside front }
    ensures small { result < 131072 }
{
    match front {
        StatementRecord::If(branch) => (branch.thens as usize) + (branch.elses as usize),
        StatementRecord::Do(_, _) => 0,
        StatementRecord::MoveTo(_) => 0,
        StatementRecord::Unknown => 0,
    }
}

// The first n records of a list; all of it where it has no more.
fn first_records(b: &[u8], n: usize) -> &[u8]
    ensures { result.now ≡ take (n * 8) b.now }
{
    if n <= b.len() / 8 {
        let end = n * 8;
        return &b[0..end];
    }
    b
}

// What stands behind the first n records of a list; nothing where it has no more.
fn behind_records(b: &[u8], n: usize) -> &[u8]
    ensures { result.now ≡ drop (n * 8) b.now }
{
    let end = b.len();
    if n <= end / 8 {
        let from = n * 8;
        return &b[from..];
    }
    &b[end..]
}

// n records of a list from record i on; fewer where it ends before.
fn records_from(b: &[u8], i: usize, n: usize) -> &[u8]
    ensures { result.now ≡ records_from i n b.now }
{
    first_records(behind_records(b, i), n)
}

// The then-part of the if at the front of a list: it follows at once.
pub fn then_part(branch: Branch, part: &[u8]) -> &[u8]
    ensures { result.now ≡ then_part branch part.now }
{
    records_from(part, 1, branch.thens as usize)
}

// Its else-part: it follows the then-part.
pub fn else_part(branch: Branch, part: &[u8]) -> &[u8]
    ensures { result.now ≡ else_part branch part.now }
{
    records_from(part, 1 + branch.thens as usize, branch.elses as usize)
}

// What stands behind the statement at the front of a list, its parts with it.
pub fn behind_statement(front: StatementRecord, part: &[u8]) -> &[u8]
    ensures { result.now ≡ behind_statement front part.now }
{
    behind_records(part, 1 + records_beside(front))
}

// do: a command 0 to 63, a pattern, the rest 0.
fn do_ok(classes: usize, r: &[u8]) -> bool
    ensures { result ≡ do_right classes r.now }
{
    let command = byte_at(r, 1);
    let pattern = pattern_ok(classes, byte_at(r, 2));
    let zero = byte_at(r, 3);
    let zeros = u32_at(r, 4);
    (command <= 63) & (pattern & ((zero == 0) & (zeros == 0)))
}

// move_to: an own state, the rest 0.
fn move_ok(states: usize, r: &[u8]) -> bool
    ensures { result ≡ move_right states r.now }
{
    let state = byte_at(r, 1);
    let zero = u16_at(r, 2);
    let zeros = u32_at(r, 4);
    (state < states) & ((zero == 0) & (zeros == 0))
}

// A list of statement records reads as a part, with ifs at most `depth` deep.
#[cycle(part_ok_statement_ok)]
fn part_ok(classes: usize, states: usize, g: &[u8], part: &[u8], depth: usize) -> bool
    ensures { result ≡ part_right depth classes states g.now part.now }
{
    if part.len() < 8 {
        return true;
    }
    let front = statement_record(part);
    if part.len() / 8 <= records_beside(front) {
        return false;
    }
    if !statement_ok(classes, states, g, part, depth) {
        return false;
    }
    part_ok(classes, states, g, behind_statement(front, part), depth)
}

// The statement at the front of a list reads as one; an if asks the same of its parts, one depth less.
#[cycle(part_ok_statement_ok)]
fn statement_ok(classes: usize, states: usize, g: &[u8], part: &[u8], depth: usize) -> bool
    requires { 8 ≤ length part.now }
    ensures { result ≡ statement_right depth classes states g.now part.now }
{
    let front = statement_record(part);
    match front {
        StatementRecord::Do(_, _) => do_ok(classes, part),
        StatementRecord::MoveTo(_) => move_ok(states, part),
        StatementRecord::If(branch) => {
            let zero = byte_at(part, 1);
            if zero != 0 {
                return false;
            }
            if depth == 0 {
                return false;
            }
            let then_ok = part_ok(classes, states, g, then_part(branch, part), depth - 1);
            let else_ok = part_ok(classes, states, g, else_part(branch, part), depth - 1);
            guard_ok(g, branch.guard as usize) & (then_ok & else_ok)
        }
        StatementRecord::Unknown => false,
    }
}

// An action clause's statements read as a part; ifs are at most 8 deep.
pub fn body_ok(classes: usize, states: usize, g: &[u8], part: &[u8]) -> bool
    ensures { result ≡ part_right 8 classes states g.now part.now }
{
    part_ok(classes, states, g, part, 8)
}

// The statements of action clause a.
pub fn statements_of<'a, 'b>(actions: &'a [u8], statements: &'b [u8], a: usize) -> &'b [u8]
    requires { a < 1024 }
    ensures { result.now ≡ statement_bytes actions.now statements.now a }
{
    let first = count_sum(actions, 2, a);
    let n = count_at(actions, 2, a);
    records_from(statements, first, n)
}
