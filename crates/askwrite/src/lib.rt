// The question `write SHEET OWNNAME OWNSTATES NAMES COMMANDS CLASSES BUFFER`, behind SHEET: its strings are read one by one, the question is
// put, and the answer's line is written. Nothing is asked of a caller beforehand. What the lines are is in specs/AskWrite.antt.
#![tactic(auto)]

ghost use Rattle.texts.specs.Texts.{Appended};
ghost use Rattle.writings.specs.Writings.{named};
ghost use Rattle.askwrite.specs.AskWrite.{line_of_written, buffer_answer, classes_answer, commands_answer, names_answer, own_states_answer, own_name_answer};

use strings::with_string;
use writeline::write_line;

// The class text is written, and its line.
fn put_written(
    sheet: &[u8],
    own_name: &[u8],
    own_states: &[u8],
    names: &[u8],
    commands: &[u8],
    classes: &[u8],
    lent: &mut [u8],
    out: &mut [u8],
) -> usize
    ensures { Appended out.old out.new 0 (line_of_written sheet.now (named own_name.now own_states.now names.now commands.now classes.now) lent.old) result }
{
    let answer = bargewicker::write_class(
        sheet, own_name, own_states, names, commands, classes, lent,
    );
    write_line(answer, lent, out)
}

// BUFFER
fn ask_buffer(
    sheet: &[u8],
    own_name: &[u8],
    own_states: &[u8],
    names: &[u8],
    commands: &[u8],
    classes: &[u8],
    fields: &[u8],
    out: &mut [u8],
) -> usize
    ensures { Appended out.old out.new 0 (buffer_answer sheet.now own_name.now own_states.now names.now commands.now classes.now fields.now) result }
{
    with_string(
        fields,
        out,
        |lent, _, out| put_written(
            sheet, own_name, own_states, names, commands, classes, lent, out,
        ),
    )
}

// CLASSES BUFFER
fn ask_classes(
    sheet: &[u8],
    own_name: &[u8],
    own_states: &[u8],
    names: &[u8],
    commands: &[u8],
    fields: &[u8],
    out: &mut [u8],
) -> usize
    ensures { Appended out.old out.new 0 (classes_answer sheet.now own_name.now own_states.now names.now commands.now fields.now) result }
{
    with_string(
        fields,
        out,
        |classes, others, out| ask_buffer(
            sheet, own_name, own_states, names, commands, classes, others, out,
        ),
    )
}

// COMMANDS CLASSES BUFFER
fn ask_commands(
    sheet: &[u8],
    own_name: &[u8],
    own_states: &[u8],
    names: &[u8],
    fields: &[u8],
    out: &mut [u8],
) -> usize
    ensures { Appended out.old out.new 0 (commands_answer sheet.now own_name.now own_states.now names.now fields.now) result }
{
    with_string(
        fields,
        out,
        |commands, others, out| ask_classes(
            sheet, own_name, own_states, names, commands, others, out,
        ),
    )
}

// NAMES COMMANDS CLASSES BUFFER
fn ask_names(
    sheet: &[u8],
    own_name: &[u8],
    own_states: &[u8],
    fields: &[u8],
    out: &mut [u8],
) -> usize
    ensures { Appended out.old out.new 0 (names_answer sheet.now own_name.now own_states.now fields.now) result }
{
    with_string(
        fields,
        out,
        |names, others, out| ask_commands(sheet, own_name, own_states, names, others, out),
    )
}

// OWNSTATES NAMES COMMANDS CLASSES BUFFER
fn ask_own_states(sheet: &[u8], own_name: &[u8], fields: &[u8], out: &mut [u8]) -> usize
    ensures { Appended out.old out.new 0 (own_states_answer sheet.now own_name.now fields.now) result }
{
    with_string(
        fields,
        out,
        |own_states, others, out| ask_names(sheet, own_name, own_states, others, out),
    )
}

// OWNNAME OWNSTATES NAMES COMMANDS CLASSES BUFFER, behind SHEET.
pub fn ask_own_name(sheet: &[u8], fields: &[u8], out: &mut [u8]) -> usize
    ensures { Appended out.old out.new 0 (own_name_answer sheet.now fields.now) result }
{
    with_string(
        fields,
        out,
        |own_name, others, out| ask_own_states(sheet, own_name, others, out),
    )
}
