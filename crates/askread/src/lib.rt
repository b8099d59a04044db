// The question `read TEXT NAMES COMMANDS CLASSES SHEET TABLE`, behind TEXT: its strings are read one by one, the question is put, and the
// answer's line is written. Nothing is asked of a caller beforehand. What the lines are is in specs/AskRead.antt.
#![tactic(auto)]

ghost use Rattle.readings.specs.Promise.{asked};
ghost use Rattle.texts.specs.Texts.{Appended};
ghost use Rattle.askread.specs.AskRead.{line_of_text, table_answer, buffer_answer, classes_answer, commands_answer, text_answer};

use readline::read_line;
use strings::with_string;

// The class text is read, and its line written.
fn put_text(
    text: &[u8],
    names: &[u8],
    commands: &[u8],
    classes: &[u8],
    sheet: &mut [u8],
    table: &mut [u8],
    out: &mut [u8],
) -> usize
    ensures { Appended out.old out.new 0 (line_of_text (asked text.now names.now commands.now classes.now sheet.old table.old)) result }
{
    let answer = bargewicker::read_class(text, names, commands, classes, sheet, table);
    read_line(answer, sheet, table, out)
}

// TABLE
fn ask_table(
    text: &[u8],
    names: &[u8],
    commands: &[u8],
    classes: &[u8],
    sheet: &mut [u8],
    fields: &[u8],
    out: &mut [u8],
) -> usize
    ensures { Appended out.old out.new 0 (table_answer text.now names.now commands.now classes.now sheet.old fields.now) result }
{
    with_string(
        fields,
        out,
        |table, _, out| put_text(text, names, commands, classes, sheet, table, out),
    )
}

// SHEET TABLE
fn ask_buffers(
    text: &[u8],
    names: &[u8],
    commands: &[u8],
    classes: &[u8],
    fields: &[u8],
    out: &mut [u8],
) -> usize
    ensures { Appended out.old out.new 0 (buffer_answer text.now names.now commands.now classes.now fields.now) result }
{
    with_string(
        fields,
        out,
        |sheet, others, out| ask_table(text, names, commands, classes, sheet, others, out),
    )
}

// CLASSES SHEET TABLE
fn ask_classes(text: &[u8], names: &[u8], commands: &[u8], fields: &[u8], out: &mut [u8]) -> usize
    ensures { Appended out.old out.new 0 (classes_answer text.now names.now commands.now fields.now) result }
{
    with_string(
        fields,
        out,
        |classes, others, out| ask_buffers(text, names, commands, classes, others, out),
    )
}

// COMMANDS CLASSES SHEET TABLE
fn ask_commands(text: &[u8], names: &[u8], fields: &[u8], out: &mut [u8]) -> usize
    ensures { Appended out.old out.new 0 (commands_answer text.now names.now fields.now) result }
{
    with_string(
        fields,
        out,
        |commands, others, out| ask_classes(text, names, commands, others, out),
    )
}

// NAMES COMMANDS CLASSES SHEET TABLE, behind TEXT.
pub fn ask_names(text: &[u8], fields: &[u8], out: &mut [u8]) -> usize
    ensures { Appended out.old out.new 0 (text_answer text.now fields.now) result }
{
    with_string(
        fields,
        out,
        |names, others, out| ask_commands(text, names, others, out),
    )
}
