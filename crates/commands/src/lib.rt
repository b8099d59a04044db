// The handling of a command, and the when phase behind it. The command's action clause is run once to count its bytes and once to write
// them; the phase has the buffer behind them.
#![tactic(auto)]

ghost use Rattle.std.specs.Prelude.{◌≡◌, ◌<◌};
ghost use Rattle.records.specs.Bytes.{in_fours};
ghost use Rattle.sheet.specs.Contents.{body};
ghost use Rattle.commands.specs.Commands.{first_action_for, left_in, own_in, RunsCommand, Handles};

use accepted::held::{ACTIONS, Sheet};
use bodies::clauses::{ACTION_CLAUSES, action_command};
use model::{Handling, OwnState, Phase, Refusal};
use phases::when_phase;
use running::{Crew, run_action};

// The number within state q of its action clause for a command, if there is one.
fn clause_for(sheet: Sheet, q: OwnState, command: u8) -> Option<usize>
    ensures { result ≡ first_action_for sheet.entry.bytes.now q.0 command }
{
    let clauses = sheet.clauses_of(q, ACTION_CLAUSES);
    let first = clauses.first;
    let actions = sheet.body(ACTIONS);
    for i in 0..clauses.count {
        if action_command(actions, first + i) == command {
            return Some(i);
        }
    }
    None
}

// The command alone, with what it sends written from the buffer's front on, as far as it reaches.
fn run_command(sheet: Sheet, crew: Crew, q: OwnState, command: u8, out: &mut [u8]) -> Handling
    ensures { RunsCommand sheet.entry.bytes.now crew.entry.list.now q.0 command out.old out.new result }
{
    let Some(a) = clause_for(sheet, q, command) else {
        return Handling::Ignored(q);
    };
    let ran = run_action(sheet, crew, q, a, out, 0);
    Handling::Handled(ran.moved.unwrap_or(q), ran.at)
}

// The state that a handling leaves.
fn left_by(handling: Handling) -> OwnState
    ensures { result ≡ left_in handling }
{
    match handling {
        Handling::Ignored(q) => q,
        Handling::Handled(q, _) => q,
    }
}

// The number of its own bytes.
fn own_bytes(handling: Handling) -> usize
    ensures { result ≡ own_in handling }
{
    match handling {
        Handling::Ignored(_) => 0,
        Handling::Handled(_, n) => n,
    }
}

// Handles a command in state q, then runs the when phase from the state that it leaves: 15 where what both send needs more than the buffer
// holds, and then nothing is written.
pub fn handle(
    sheet: Sheet,
    crew: Crew,
    q: OwnState,
    command: u8,
    out: &mut [u8],
) -> Result<(Handling, Phase), Refusal>
    requires { q.0 < in_fours (body sheet.bytes.now 1) }
    ensures { Handles sheet.entry.bytes.now crew.entry.list.now q.0 command out.old out.new result }
{
    let counted = run_command(sheet, crew, q, command, &mut out[..0]);
    let own = own_bytes(counted);
    if out.len() < own {
        return Err(Refusal::Room);
    }
    let phase = when_phase(sheet, crew, left_by(counted), &mut out[own..])?;
    let handling = run_command(sheet, crew, q, command, &mut out[..own]);
    Ok((handling, phase))
}
