// What is missing where a class text is refused for its names: a name for a command or for a child state, or the place of a class line
// whose states are not the sheet's.
ghost use Rattle.std.specs.Prelude.{◌≤◌, length};

use accepted::held::{ACTIONS, GUARDS, STATEMENTS, Sheet, WHENS};
use bodies::clauses::{action_command, guard_place, name_set};
use bodies::statements::{StatementRecord, statement_record};
use classfile::fields::{Field, Kind, next_field};
use kinds::is_same;
use lists::{class_set, record_count};
use model::ChildName;
use records::guards::{GuardRecord, guard_end, guard_record};
use records::sets::has_name;
use records::words::{in_eights, in_fours, record_at};
use texts::writing::least;

// A number that has no name: a command's, or a child state's.
#[derive(Clone, Copy)]
pub enum Gap {
    Command(usize),
    State(usize),
}

// A command, where so many have names.
fn command_gap(command: usize, commands: usize) -> Option<Gap> {
    if commands <= command {
        return Some(Gap::Command(command));
    }
    None
}

// The first state of a set without a name, where so many have one.
fn set_gap(set: u32, names: usize) -> Option<Gap> {
    for i in names..32 {
        if has_name(set, ChildName(i as u8)) {
            return Some(Gap::State(i));
        }
    }
    None
}

// The same of the set of guard record i.
fn record_gap(g: &[u8], i: usize, names: usize) -> Option<Gap> {
    match guard_record(g, i) {
        GuardRecord::Atom(_, _, set) => set_gap(set, names),
        GuardRecord::Operator(_) | GuardRecord::Unknown => None,
    }
}

// The same of the guard records from one to another.
fn records_gap(g: &[u8], from: usize, to: usize, names: usize) -> Option<Gap> {
    (from..to).find_map(|i| record_gap(g, i, names))
}

// The same of the guard that begins at a place.
fn guard_gap(g: &[u8], place: usize, names: usize) -> Option<Gap> {
    let stop = guard_end(g, place, 16)?;
    records_gap(g, place, stop, names)
}

// The same of the when clauses, of which there are at most 256.
fn whens_gap(whens: &[u8], g: &[u8], names: usize) -> Option<Gap> {
    for w in 0..least(in_fours(whens), 256) {
        let gap = guard_gap(g, guard_place(whens, w), names);
        if gap.is_some() {
            return gap;
        }
    }
    None
}

// The first command of an action clause without a name; of them too there are at most 256.
fn actions_gap(actions: &[u8], commands: usize) -> Option<Gap> {
    for a in 0..least(in_fours(actions), 256) {
        let gap = command_gap(usize::from(action_command(actions, a)), commands);
        if gap.is_some() {
            return gap;
        }
    }
    None
}

// A statement's own record: the command of a do, the guard of an if.
fn statement_gap(r: &[u8], g: &[u8], names: usize, commands: usize) -> Option<Gap> {
    match statement_record(r) {
        StatementRecord::Do(command, _) => command_gap(usize::from(command), commands),
        StatementRecord::If(branch) => guard_gap(g, branch.guard as usize, names),
        StatementRecord::MoveTo(_) | StatementRecord::Unknown => None,
    }
}

// All statements.
fn statements_gap(statements: &[u8], g: &[u8], names: usize, commands: usize) -> Option<Gap> {
    for i in 0..in_eights(statements) {
        let gap = statement_gap(record_at(statements, i), g, names, commands);
        if gap.is_some() {
            return gap;
        }
    }
    None
}

// The first number without a name of an accepted sheet.
pub fn sheet_gap(sheet: Sheet, names: usize, commands: usize) -> Option<Gap> {
    let guards = sheet.body(GUARDS);
    let actions = sheet.body(ACTIONS);
    let statements = sheet.body(STATEMENTS);
    whens_gap(sheet.body(WHENS), guards, names)
        .or_else(|| actions_gap(actions, commands))
        .or_else(|| statements_gap(statements, guards, names, commands))
}

// The first class whose states are not the sheet's; a sheet has at most 8.
pub fn other_class(classes: &[u8], sets: &[u8]) -> Option<usize> {
    for i in 0..least(record_count(classes, 36), 8) {
        if class_set(classes, i) != name_set(sets, i) {
            return Some(i);
        }
    }
    None
}

// The field is the first word of a class line: no name is `class`.
fn is_class(file: &[u8], start: usize, end: usize) -> bool
    requires { (start ≤ end) × (end ≤ length file.now) }
{
    is_same(b"class", &file[start..end])
}

// The name in class line n of the head that begins at a place.
pub fn class_name(file: &[u8], from: usize, n: usize) -> Field
    requires { from ≤ length file.now }
{
    let mut left = n;
    let mut at = from;
    // No count: a step is a field long.
    loop {
        let field = next_field(file, at);
        let start = field.start;
        at = field.end;
        if let Kind::FileEnd = field.kind {
            return field;
        }
        if is_class(file, start, at) {
            if left == 0 {
                return next_field(file, at);
            }
            left -= 1;
        }
    }
}
