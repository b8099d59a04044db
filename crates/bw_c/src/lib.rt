// The exports for C: the questions of `bw`, each under its name, with its promise. What a word holds is said there, and for C in
// include/bargewicker.h.
#![tactic(auto)]

ghost use Rattle.std.specs.Prelude.{[]};
ghost use Rattle.bargewicker.specs.Questions.{judge, probe_in, phase_from, command_in, loop_with, text_of};
ghost use Rattle.writings.specs.Writings.{named};
ghost use Rattle.readings.specs.Promise.{asked};
ghost use Rattle.bw.specs.Packed.{Returned, ReturnedBoth};
ghost use Rattle.bw.specs.PackedReading.{ReturnedReading};

// Is this byte string a class sheet?
#[unsafe(no_mangle)]
pub extern "C" fn bw_judge(sheet: &[u8]) -> u64
    ensures { Returned (judge sheet.now) result [] }
{
    bw::bw_judge(sheet)
}

// Which clause of the state is the first whose guard these children make true?
#[unsafe(no_mangle)]
pub extern "C" fn bw_probe(sheet: &[u8], children: &[u8], state: u8) -> u64
    ensures { Returned (probe_in sheet.now children.now state) result [] }
{
    bw::bw_probe(sheet, children, state)
}

// Where does the when phase from the state settle with these children, and what do its DOs send on the way, or does it loop?
#[unsafe(no_mangle)]
pub extern "C" fn bw_when_phase(sheet: &[u8], children: &[u8], state: u8, out: &mut [u8]) -> u64
    ensures { Returned (phase_from sheet.now children.now state out.old) result out.new }
{
    bw::bw_when_phase(sheet, children, state, out)
}

// What does the command send to which children, and which state does it leave; and what does the when phase from that state come to? The
// phase's word goes to the lent array.
#[unsafe(no_mangle)]
pub extern "C" fn bw_command(
    sheet: &[u8],
    children: &[u8],
    state: u8,
    command: u8,
    out: &mut [u8],
    phase: &mut [u64; 1],
) -> u64
    ensures { ReturnedBoth (command_in sheet.now children.now state command out.old) phase.old result out.new phase.new }
{
    bw::bw_command(sheet, children, state, command, out, phase)
}

// Which states of children of the present classes can make the node loop, or how many moves does it make at most?
#[unsafe(no_mangle)]
pub extern "C" fn bw_loop(sheet: &[u8], present: u8, out: &mut [u8]) -> u64
    ensures { Returned (loop_with sheet.now present out.old) result out.new }
{
    bw::bw_loop(sheet, present, out)
}

// Which class is this text? Its sheet and its table of own states go to the lent buffers.
#[unsafe(no_mangle)]
pub extern "C" fn bw_read_class(
    text: &[u8],
    names: &[u8],
    commands: &[u8],
    classes: &[u8],
    sheet: &mut [u8],
    table: &mut [u8],
) -> u64
    ensures { ReturnedReading (asked text.now names.now commands.now classes.now sheet.old table.old) result sheet.new table.new }
{
    bw::bw_read_class(text, names, commands, classes, sheet, table)
}

// What is the text of this sheet's class, with these names? It goes to the lent buffer.
#[unsafe(no_mangle)]
pub extern "C" fn bw_write_class(
    sheet: &[u8],
    own_name: &[u8],
    own_states: &[u8],
    names: &[u8],
    commands: &[u8],
    classes: &[u8],
    out: &mut [u8],
) -> u64
    ensures { Returned (text_of sheet.now (named own_name.now own_states.now names.now commands.now classes.now) out.old) result out.new }
{
    bw::bw_write_class(sheet, own_name, own_states, names, commands, classes, out)
}
