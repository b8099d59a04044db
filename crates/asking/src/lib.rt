// From a line to its answer: the verb and its fields are read, the question is put, and the answer's line is written. Nothing is asked of
// a caller beforehand. What the lines are is in specs/Asking.antt.
#![tactic(auto)]

ghost use Rattle.std.specs.Prelude.{◌≡◌};
ghost use Rattle.bargewicker.specs.Questions.{judge, phase_from, command_in, loop_with};
ghost use Rattle.texts.specs.Texts.{Appended};
ghost use Rattle.asking.specs.Asking.{is_form, verb_of, line_of, sending_from, sending_answer, command_answer, placed_answer, state_answer, list_answer, loop_answer, sheet_answer, fields_answer, answer_line};

use askread::ask_names;
use askwrite::ask_own_name;
use check::same;
use lines::answers::{bad_line, command_line, judge_line, loop_line, phase_line, probe_line};
use strings::with_string;
use texts::reading::{count, first_field, other_fields, read_number};

// The questions of a child list and a state.
#[derive(Clone, Copy)]
pub enum Asked {
    Probe,
    Phase,
    Command,
}

// Those of them that are lent a buffer, for what is sent.
#[derive(Clone, Copy)]
pub enum Sending {
    Phase,
    Command(u8),
}

// The questions.
#[derive(Clone, Copy)]
pub enum Verb {
    Judge,
    Loop,
    Placed(Asked),
    Read,
    Write,
    Other,
}

// Whether a line's verb is a word, and it has so many spaces.
fn is_form(verb: &[u8], word: &[u8], spaces: usize, n: usize) -> bool
    ensures { result ≡ is_form verb.now word.now spaces n }
{
    same(verb, word) & (spaces == n)
}

// The verb of a line with so many spaces.
fn verb_of(verb: &[u8], spaces: usize) -> Verb
    ensures { result ≡ verb_of verb.now spaces }
{
    if is_form(verb, b"judge", spaces, 1) {
        return Verb::Judge;
    }
    if is_form(verb, b"loop", spaces, 3) {
        return Verb::Loop;
    }
    if is_form(verb, b"probe", spaces, 3) {
        return Verb::Placed(Asked::Probe);
    }
    if is_form(verb, b"phase", spaces, 4) {
        return Verb::Placed(Asked::Phase);
    }
    if is_form(verb, b"command", spaces, 5) {
        return Verb::Placed(Asked::Command);
    }
    if is_form(verb, b"read", spaces, 6) {
        return Verb::Read;
    }
    if is_form(verb, b"write", spaces, 7) {
        return Verb::Write;
    }
    Verb::Other
}

// The when phase is put, and its line written.
fn put_phase(sheet: &[u8], list: &[u8], state: u8, lent: &mut [u8], out: &mut [u8]) -> usize
    ensures { Appended out.old out.new 0 (line_of (phase_from sheet.now list.now state lent.old)) result }
{
    let answer = bargewicker::when_phase(sheet, list, state, lent);
    phase_line(answer, lent, out)
}

// The command is put, and its line written.
fn put_command(
    sheet: &[u8],
    list: &[u8],
    state: u8,
    command: u8,
    lent: &mut [u8],
    out: &mut [u8],
) -> usize
    ensures { Appended out.old out.new 0 (line_of (command_in sheet.now list.now state command lent.old)) result }
{
    let answer = bargewicker::command(sheet, list, state, command, lent);
    command_line(answer, lent, out)
}

// Either is put.
fn put_sending(
    sending: Sending,
    sheet: &[u8],
    list: &[u8],
    state: u8,
    lent: &mut [u8],
    out: &mut [u8],
) -> usize
    ensures { Appended out.old out.new 0 (line_of (sending_from sending sheet.now list.now state lent.old)) result }
{
    match sending {
        Sending::Phase => put_phase(sheet, list, state, lent, out),
        Sending::Command(command) => put_command(sheet, list, state, command, lent, out),
    }
}

// BUFFER
fn ask_sending(
    sending: Sending,
    sheet: &[u8],
    list: &[u8],
    state: u8,
    fields: &[u8],
    out: &mut [u8],
) -> usize
    ensures { Appended out.old out.new 0 (sending_answer sending sheet.now list.now state fields.now) result }
{
    with_string(
        fields,
        out,
        |lent, _, out| put_sending(sending, sheet, list, state, lent, out),
    )
}

// COMMAND BUFFER
fn ask_command(sheet: &[u8], list: &[u8], state: u8, fields: &[u8], out: &mut [u8]) -> usize
    ensures { Appended out.old out.new 0 (command_answer sheet.now list.now state fields.now) result }
{
    let Some(command) = read_number(first_field(fields)) else {
        return bad_line(out);
    };
    ask_sending(
        Sending::Command(command),
        sheet,
        list,
        state,
        other_fields(fields),
        out,
    )
}

// What is behind LIST STATE.
fn ask_placed(
    asked: Asked,
    sheet: &[u8],
    list: &[u8],
    state: u8,
    fields: &[u8],
    out: &mut [u8],
) -> usize
    ensures { Appended out.old out.new 0 (placed_answer asked sheet.now list.now state fields.now) result }
{
    match asked {
        Asked::Probe => probe_line(bargewicker::probe(sheet, list, state), out),
        Asked::Phase => ask_sending(Sending::Phase, sheet, list, state, fields, out),
        Asked::Command => ask_command(sheet, list, state, fields, out),
    }
}

// What is behind LIST.
fn ask_state(asked: Asked, sheet: &[u8], list: &[u8], fields: &[u8], out: &mut [u8]) -> usize
    ensures { Appended out.old out.new 0 (state_answer asked sheet.now list.now fields.now) result }
{
    let Some(state) = read_number(first_field(fields)) else {
        return bad_line(out);
    };
    ask_placed(asked, sheet, list, state, other_fields(fields), out)
}

// LIST and what is behind it.
fn ask_list(asked: Asked, sheet: &[u8], fields: &[u8], out: &mut [u8]) -> usize
    ensures { Appended out.old out.new 0 (list_answer asked sheet.now fields.now) result }
{
    with_string(
        fields,
        out,
        |list, others, out| ask_state(asked, sheet, list, others, out),
    )
}

// The loop question is put, and its line written.
fn put_loop(sheet: &[u8], present: u8, lent: &mut [u8], out: &mut [u8]) -> usize
    ensures { Appended out.old out.new 0 (line_of (loop_with sheet.now present lent.old)) result }
{
    let answer = bargewicker::loop_question(sheet, present, lent);
    loop_line(answer, lent, out)
}

// PRESENT BUFFER
fn ask_loop(sheet: &[u8], fields: &[u8], out: &mut [u8]) -> usize
    ensures { Appended out.old out.new 0 (loop_answer sheet.now fields.now) result }
{
    let Some(present) = read_number(first_field(fields)) else {
        return bad_line(out);
    };
    with_string(
        other_fields(fields),
        out,
        |lent, _, out| put_loop(sheet, present, lent, out),
    )
}

// What is behind SHEET, or TEXT.
fn ask_sheet(verb: Verb, sheet: &[u8], fields: &[u8], out: &mut [u8]) -> usize
    ensures { Appended out.old out.new 0 (sheet_answer verb sheet.now fields.now) result }
{
    match verb {
        Verb::Judge => judge_line(bargewicker::judge(sheet), out),
        Verb::Loop => ask_loop(sheet, fields, out),
        Verb::Placed(asked) => ask_list(asked, sheet, fields, out),
        Verb::Read => ask_names(sheet, fields, out),
        Verb::Write => ask_own_name(sheet, fields, out),
        Verb::Other => bad_line(out),
    }
}

// SHEET, or TEXT, and what is behind it.
fn ask_fields(verb: Verb, fields: &[u8], out: &mut [u8]) -> usize
    ensures { Appended out.old out.new 0 (fields_answer verb fields.now) result }
{
    with_string(
        fields,
        out,
        |sheet, others, out| ask_sheet(verb, sheet, others, out),
    )
}

// The answer to a line, written from the buffer's front on; the place behind it.
pub fn answer(line: &[u8], out: &mut [u8]) -> usize
    ensures { Appended out.old out.new 0 (answer_line line.now) result }
{
    if 1048576 < line.len() {
        return bad_line(out);
    }
    let verb = verb_of(first_field(line), count(line, b' '));
    ask_fields(verb, other_fields(line), out)
}
