// Statements run on the children of a list: the commands that they send are written into a lent buffer from a place on, as far as it
// reaches, and the place behind them is answered. Running an action clause is this one function, for a command and for a DO.
#![tactic(auto)]

ghost use Rattle.std.specs.Prelude.{◌≡◌, [], ◌∷◌, ◌/◌, ◌%◌, ◌<◌, ◌≤◌, length, set};
ghost use Rattle.std.proofs.lemmas.List.Edits.{sets};
ghost use Rattle.model.specs.Running.{sent_to};
ghost use Rattle.records.specs.Patterns.{pattern_as};
ghost use Rattle.bodies.specs.Clauses.{action_count};
ghost use Rattle.bodies.specs.StatementReaders.{statement_record};
ghost use Rattle.bodies.specs.declared.statements.StatementRecord.TheVariants.{If};
ghost use Rattle.sheet.specs.Contents.{body};
ghost use Rattle.children.specs.ChildList.{children_of};
ghost use Rattle.running.specs.Running.{concerned, Counted, Writes, Room, RunsPart, RunsIf, Runnable, RunsAction};

use accepted::held::{ACTIONS, GUARDS, STATEMENTS, Sheet};
use bodies::clauses::ACTION_CLAUSES;
use bodies::statements::{
    Branch, StatementRecord, behind_statement, else_part, statement_record, statements_of,
    then_part,
};
use model::{ChildClass, OwnState};
use node::values::guard_true;
use records::kinds::{Pattern, class_at};

// What running statements did: the place in the buffer behind the bytes sent, and where the move_to that ended the clause leads, if one did.
#[derive(Clone, Copy)]
pub struct Ran {
    pub at: usize,
    pub moved: Option<OwnState>,
}

// The children of a list, with the name sets that show them. Whoever makes one shows that the sets do, and that the list is short.
#[derive(Clone, Copy)]
pub struct Crew<'a> {
    pub list: &'a [u8],
    pub sets: [u32; 8],
    ghost runnable: { Runnable sets list.now },
}

// A byte at a place of the buffer; past its end nothing is stored.
fn store(out: &mut [u8], at: usize, byte: u8)
    ensures { out.new ≡ set out.old at byte }
{
    if at < out.len() {
        out[at] = byte;
    }
}

// One command sent: its child's place in the list, low byte first, and the command.
fn put(out: &mut [u8], at: usize, place: usize, command: u8)
    requires { (at < 1099511627776) × (place < 65536) }
    ensures { out.new ≡ sets out.old at (place % 256 ∷ place / 256 ∷ command ∷ []) }
{
    store(out, at, (place % 256) as u8);
    store(out, at + 1, (place / 256) as u8);
    store(out, at + 2, command);
}

// A child of this class is one of the pattern's.
fn is_meant(pattern: Pattern, class: ChildClass) -> bool
    ensures { result ≡ concerned (pattern_as pattern) class.0 }
{
    match pattern {
        Pattern::Everyone => true,
        Pattern::OfClass(one) => class.0 == one.0,
    }
}

// The command for each child of the pattern, in list order; the place behind the last byte.
fn send(list: &[u8], pattern: Pattern, command: u8, out: &mut [u8], at: usize) -> usize
    requires list_len_bound { length list.now ≤ 8192 }
    requires counted { Counted (sent_to command (pattern_as pattern) 0 (children_of list.now)) at }
    ensures { Writes (sent_to command (pattern_as pattern) 0 (children_of list.now)) out.old out.new at result }
{
    let mut end = at;
    for i in 0..list.len() / 2 {
        let meant = is_meant(pattern, class_at(list, 2 * i));
        if meant {
            put(out, end, i, command);
            end += 3;
        }
    }
    end
}

// Runs a list of statements on the children that the sets show: calls `run_if` on an if, which calls the list on its part.
#[cycle(run_if_run_list)]
fn run_list(g: &[u8], sets: [u32; 8], list: &[u8], part: &[u8], out: &mut [u8], at: usize) -> Ran
    requires { Room sets g.now list.now part.now at }
    ensures { RunsPart g.now list.now part.now out.old out.new at result }
{
    let front = statement_record(part);
    match front {
        StatementRecord::Do(command, pattern) => {
            let next = send(list, pattern, command, out, at);
            run_list(g, sets, list, behind_statement(front, part), out, next)
        }
        StatementRecord::MoveTo(t) => Ran { at, moved: Some(t) },
        StatementRecord::If(branch) => {
            let ran = run_if(g, sets, list, branch, part, out, at);
            match ran.moved {
                Some(_) => ran,
                None => run_list(g, sets, list, behind_statement(front, part), out, ran.at),
            }
        }
        StatementRecord::Unknown => Ran { at, moved: None },
    }
}

// Runs the if at the front of a list: its then-part where the guard is true, else its else-part.
#[cycle(run_if_run_list)]
fn run_if(
    g: &[u8],
    sets: [u32; 8],
    list: &[u8],
    branch: Branch,
    part: &[u8],
    out: &mut [u8],
    at: usize,
) -> Ran
    requires room { Room sets g.now list.now part.now at }
    requires part_value { statement_record part.now ≡ If branch }
    ensures { RunsIf g.now list.now part.now out.old out.new at result }
{
    if guard_true(g, branch.guard as usize, sets) {
        return run_list(g, sets, list, then_part(branch, part), out, at);
    }
    run_list(g, sets, list, else_part(branch, part), out, at)
}

// Runs action clause a of state q: what it sends is written from a place on.
pub fn run_action(sheet: Sheet, crew: Crew, q: OwnState, a: usize, out: &mut [u8], at: usize) -> Ran
    requires { (a < action_count (body sheet.bytes.now 1) q.0) × (at < 900000000000) }
    ensures { RunsAction sheet.entry.bytes.now crew.entry.list.now q.0 a out.old out.new at result }
{
    let clauses = sheet.clauses_of(q, ACTION_CLAUSES);
    let part = statements_of(
        sheet.body(ACTIONS),
        sheet.body(STATEMENTS),
        clauses.first + a,
    );
    run_list(sheet.body(GUARDS), crew.sets, crew.list, part, out, at)
}
