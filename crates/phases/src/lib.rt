// The when phase: probe, move or run a DO's clause at once, and probe again, until it settles or S moves have been made. It is walked
// once to count the bytes of the commands sent and once to write them; where each state led is kept, so that a phase that loops runs no
// action clause again.
#![tactic(auto)]

ghost use Rattle.std.specs.Prelude.{◌≡◌, ◌+◌, ◌<◌};
ghost use Rattle.records.specs.Bytes.{in_fours};
ghost use Rattle.bodies.specs.Clauses.{first_action, action_count, action_command};
ghost use Rattle.sheet.specs.Contents.{body};
ghost use Rattle.phases.specs.Phases.{RunsDo, Turns, Walks, Phases};

use accepted::held::{ACTIONS, Sheet};
use bodies::clauses::{ACTION_CLAUSES, action_command};
use model::{Ending, OwnState, Phase, Referrer, Refusal};
use node::probing::probe;
use running::{Crew, run_action};

// One turn: the phase ends, or the node moves.
#[derive(Clone, Copy)]
pub enum Turn {
    Stops(Ending),
    Moves(OwnState),
}

// A turn, and the place in the buffer behind the commands that it sent.
#[derive(Clone, Copy)]
pub struct Turned {
    pub turn: Turn,
    pub at: usize,
}

// The command of action clause a of state q.
fn command_of(sheet: Sheet, q: OwnState, a: u8) -> u8
    ensures { result ≡ action_command (body sheet.entry.bytes.now 4) (first_action (body sheet.entry.bytes.now 1) q.0 + a) }
{
    let clauses = sheet.clauses_of(q, ACTION_CLAUSES);
    action_command(sheet.body(ACTIONS), clauses.first + (a as usize))
}

// A DO runs its clause at once: a move, if that reaches a move_to; else the phase ends there.
fn run_do(sheet: Sheet, crew: Crew, q: OwnState, a: u8, out: &mut [u8], at: usize) -> Turned
    requires { (a < action_count (body sheet.bytes.now 1) q.0) × (at < 900000000000) }
    ensures { RunsDo sheet.entry.bytes.now crew.entry.list.now q.0 a out.old out.new at result }
{
    let ran = run_action(sheet, crew, q, a as usize, out, at);
    let turn = match ran.moved {
        Some(to) => Turn::Moves(to),
        None => Turn::Stops(Ending::ByDo(command_of(sheet, q, a))),
    };
    Turned { turn, at: ran.at }
}

// What follows from the probe of state q; what it sends is written from a place on.
pub fn turn_from(sheet: Sheet, crew: Crew, q: OwnState, out: &mut [u8], at: usize) -> Turned
    requires { at < 900000000000 }
    ensures { Turns sheet.entry.bytes.now crew.entry.list.now q.0 out.old out.new at result }
{
    let Some((_, referrer)) = probe(sheet, q, crew.sets) else {
        return Turned {
            turn: Turn::Stops(Ending::ByNone),
            at,
        };
    };
    match referrer {
        Referrer::MoveTo(t) => Turned {
            turn: Turn::Moves(t),
            at,
        },
        Referrer::Do(a) => run_do(sheet, crew, q, a, out, at),
        Referrer::Stay => Turned {
            turn: Turn::Stops(Ending::ByStay),
            at,
        },
    }
}

// The phase from state q, with what it sends written from the buffer's front on, as far as it reaches.
fn walk(sheet: Sheet, crew: Crew, q: OwnState, out: &mut [u8]) -> Phase
    requires { q.0 < in_fours (body sheet.bytes.now 1) }
    ensures { Walks sheet.entry.bytes.now crew.entry.list.now q.0 out.old out.new result }
{
    let most = sheet.state_count();
    let mut to: [Option<OwnState>; 32] = [None; 32];
    let mut at = q;
    let mut end = 0;
    for made in 0..most {
        let i = at.0 as usize;
        if let Some(t) = to[i] {
            at = t;
            continue;
        }
        let turned = turn_from(sheet, crew, at, out, end);
        match turned.turn {
            Turn::Stops(e) => return Phase::Settled(e, at, made, turned.at),
            Turn::Moves(t) => {
                to[i] = Some(t);
                at = t;
                end = turned.at;
            }
        }
    }
    Phase::Loops(at, most)
}

// The when phase from state q: 15 where it settles and its commands need more than the buffer holds, and then nothing is written.
pub fn when_phase(sheet: Sheet, crew: Crew, q: OwnState, out: &mut [u8]) -> Result<Phase, Refusal>
    requires { q.0 < in_fours (body sheet.bytes.now 1) }
    ensures { Phases sheet.entry.bytes.now crew.entry.list.now q.0 out.old out.new result }
{
    let counted = walk(sheet, crew, q, &mut out[..0]);
    match counted {
        Phase::Settled(_, _, _, needed) => {
            if out.len() < needed {
                return Err(Refusal::Room);
            }
            Ok(walk(sheet, crew, q, &mut out[..needed]))
        }
        Phase::Loops(_, _) => Ok(counted),
    }
}
