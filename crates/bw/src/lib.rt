// The face for C: each question as a function that returns one word; a command has a second one, which is lent. `bw_c` exports them. A slice is a
// pointer and a length to C, an array of fixed length a pointer; nothing more is asked of the caller, and a refusal writes nothing. What a
// word holds is in specs/Packed.antt, of a class text that is read in specs/PackedReading.antt, and for C in include/bargewicker.h.
#![tactic(auto)]

ghost use Rattle.std.specs.Prelude.{◌≡◌, [], ◌∷◌, Some};
ghost use Rattle.model.specs.Values.{probed_values, settled_values};
ghost use Rattle.model.specs.Answers.{probed_as, ending_as, phased_values, handled_values, looped_values, judge_numbers, probe_numbers, phase_numbers, command_numbers, loop_numbers, write_numbers};
ghost use Rattle.bargewicker.specs.Questions.{judge, probe_in, phase_from, command_in, loop_with, text_of};
ghost use Rattle.writings.specs.Writings.{named};
ghost use Rattle.readings.specs.Promise.{asked, reading_as};
ghost use Rattle.bw.specs.Packed.{word, kinds_of_judge, kinds_of_probe, kinds_of_phase, kinds_of_command, kinds_of_loop, kinds_of_text, BothWords, Returned, ReturnedBoth};
ghost use Rattle.bw.specs.PackedReading.{packed_reading, ReturnedReading};

use model::{Ending, Handling, Loops, Misread, OwnState, Phase, Probed, Referrer, Refusal};

// A value times one of these stands in its field of the word.
const KIND: u64 = 0x100;

const CLAUSE: u64 = 0x10000;

const STATE: u64 = 0x10000;

const MOVES: u64 = 0x1000000;

const REFERRER: u64 = 0x100000000;

const TO_DO: u64 = 0x100000000;

const WRITTEN: u64 = 0x100000000;

const CONFIGURATION: u64 = 0x100000000;

const TARGET: u64 = 0x10000000000;

const SENT: u64 = 0x10000000000;

const PLACE: u64 = 0x100;

const STATES: u64 = 0x10000;

const LENGTH: u64 = 0x100000000;

// Is this byte string a class sheet?
pub fn bw_judge(sheet: &[u8]) -> u64
    ensures { Returned (judge sheet.now) result [] }
{
    pack_judge(bargewicker::judge(sheet))
}

// Which clause of the state is the first whose guard these children make true?
pub fn bw_probe(sheet: &[u8], children: &[u8], state: u8) -> u64
    ensures { Returned (probe_in sheet.now children.now state) result [] }
{
    pack_probe(bargewicker::probe(sheet, children, state))
}

// Where does the when phase from the state settle with these children, and what do its DOs send on the way, or does it loop?
pub fn bw_when_phase(sheet: &[u8], children: &[u8], state: u8, out: &mut [u8]) -> u64
    ensures { Returned (phase_from sheet.now children.now state out.old) result out.new }
{
    pack_phase(bargewicker::when_phase(sheet, children, state, out))
}

// What does the command send to which children, and which state does it leave; and what does the when phase from that state come to? The
// phase's word goes to the lent array.
pub fn bw_command(
    sheet: &[u8],
    children: &[u8],
    state: u8,
    command: u8,
    out: &mut [u8],
    phase: &mut [u64; 1],
) -> u64
    ensures { ReturnedBoth (command_in sheet.now children.now state command out.old) phase.old result out.new phase.new }
{
    pack_command(
        bargewicker::command(sheet, children, state, command, out),
        phase,
    )
}

// Which states of children of the present classes can make the node loop, or how many moves does it make at most?
pub fn bw_loop(sheet: &[u8], present: u8, out: &mut [u8]) -> u64
    ensures { Returned (loop_with sheet.now present out.old) result out.new }
{
    pack_loop(bargewicker::loop_question(sheet, present, out))
}

// Which class is this text? Its sheet and its table of own states go to the lent buffers.
pub fn bw_read_class(
    text: &[u8],
    names: &[u8],
    commands: &[u8],
    classes: &[u8],
    sheet: &mut [u8],
    table: &mut [u8],
) -> u64
    ensures { ReturnedReading (asked text.now names.now commands.now classes.now sheet.old table.old) result sheet.new table.new }
{
    pack_reading(bargewicker::read_class(text, names, commands, classes, sheet, table))
}

// What is the text of this sheet's class, with these names? It goes to the lent buffer.
pub fn bw_write_class(
    sheet: &[u8],
    own_name: &[u8],
    own_states: &[u8],
    names: &[u8],
    commands: &[u8],
    classes: &[u8],
    out: &mut [u8],
) -> u64
    ensures { Returned (text_of sheet.now (named own_name.now own_states.now names.now commands.now classes.now) out.old) result out.new }
{
    pack_text(bargewicker::write_class(sheet, own_name, own_states, names, commands, classes, out))
}

// The word of each answer: a refusal's number, or what is given.
fn pack_judge(answer: Result<(), Refusal>) -> u64
    ensures { result ≡ word kinds_of_judge (judge_numbers answer) }
{
    answer.map_or_else(|x| u64::from(x), |()| 0)
}

fn pack_probe(answer: Result<Probed, Refusal>) -> u64
    ensures { result ≡ word kinds_of_probe (probe_numbers answer) }
{
    answer.map_or_else(|x| u64::from(x), pack_probed)
}

fn pack_phase(answer: Result<Phase, Refusal>) -> u64
    ensures { result ≡ word kinds_of_phase (phase_numbers answer) }
{
    answer.map_or_else(|x| u64::from(x), pack_phased)
}

// A command has two: that of its handling, and the lent one of the phase behind it, which a refusal leaves as it was.
fn pack_command(answer: Result<(Handling, Phase), Refusal>, phase: &mut [u64; 1]) -> u64
    ensures { BothWords (command_numbers answer) phase.old result phase.new }
{
    match answer {
        Err(x) => u64::from(x),
        Ok((h, p)) => {
            *phase = [pack_phased(p)];
            pack_handling(h)
        }
    }
}

fn pack_loop(answer: Result<Loops, Refusal>) -> u64
    ensures { result ≡ word kinds_of_loop (loop_numbers answer) }
{
    answer.map_or_else(|x| u64::from(x), pack_loops)
}

fn pack_text(answer: Result<usize, Refusal>) -> u64
    ensures { result ≡ word kinds_of_text (write_numbers answer) }
{
    answer.map_or_else(
        |x| u64::from(x),
        |length| (length as u64) % 4294967296 * LENGTH,
    )
}

// What the probe finds.
fn pack_probed(probed: Probed) -> u64
    ensures { result ≡ word kinds_of_probe (0 ∷ probed_values (probed_as probed)) }
{
    match probed {
        None => 0,
        Some((i, r)) => pack_clause(i, r),
    }
}

// A clause: its number, its referrer and target.
fn pack_clause(number: usize, referrer: Referrer) -> u64
    ensures { result ≡ word kinds_of_probe (0 ∷ probed_values (probed_as (Some (number, referrer)))) }
{
    let clause = KIND + (number as u64) % 65536 * CLAUSE;
    match referrer {
        Referrer::MoveTo(t) => clause + (t.0 as u64) * TARGET,
        Referrer::Do(a) => clause + REFERRER + (a as u64) * TARGET,
        Referrer::Stay => clause + 2 * REFERRER,
    }
}

// A when phase.
fn pack_phased(phase: Phase) -> u64
    ensures { result ≡ word kinds_of_phase (0 ∷ phased_values phase) }
{
    match phase {
        Phase::Settled(e, q, m, n) => pack_settled(e, q, m, n),
        Phase::Loops(q, m) => 3 * KIND + (q.0 as u64) * STATE + (m as u64) % 256 * MOVES,
    }
}

// A settled phase: by what, the state, the moves, the bytes written.
fn pack_settled(ending: Ending, q: OwnState, m: usize, n: usize) -> u64
    ensures { result ≡ word kinds_of_phase (0 ∷ settled_values (ending_as ending) q.0 m n) }
{
    let way = (q.0 as u64) * STATE + (m as u64) % 256 * MOVES + (n as u64) % 16777216 * SENT;
    match ending {
        Ending::ByNone => way,
        Ending::ByStay => KIND + way,
        Ending::ByDo(c) => 2 * KIND + way + (c as u64) * TO_DO,
    }
}

// The handling of a command.
fn pack_handling(handling: Handling) -> u64
    ensures { result ≡ word kinds_of_command (0 ∷ handled_values handling) }
{
    match handling {
        Handling::Ignored(q) => (q.0 as u64) * STATE,
        Handling::Handled(q, n) => KIND + (q.0 as u64) * STATE + (n as u64) % 4294967296 * WRITTEN,
    }
}

// What a class does.
fn pack_loops(loops: Loops) -> u64
    ensures { result ≡ word kinds_of_loop (0 ∷ looped_values loops) }
{
    match loops {
        Loops::Loop(k, q) => KIND + (q.0 as u64) * STATE + (k as u64) * CONFIGURATION,
        Loops::Free(m) => (m as u64) % 256 * MOVES,
    }
}

// A class text: refused, 16 with its place, or read.
fn pack_reading(answer: Result<(usize, usize), Misread>) -> u64
    ensures { result ≡ packed_reading (reading_as answer) }
{
    match answer {
        Err(Misread::Refused(x)) => u64::from(x),
        Err(Misread::WrongWord(place)) => 16 + (place as u64) % 0x100000000000000 * PLACE,
        Ok((length, states)) => (states as u64) % 256 * STATES
            + (length as u64) % 4294967296 * LENGTH,
    }
}
