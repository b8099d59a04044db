// Why there is no class text, by what was found to be wrong. The numbers of the messages are those of the lines in `messages`.
ghost use Rattle.std.specs.Prelude.{◌≤◌, length};

use crate::gaps::{Gap, class_name, other_class, sheet_gap};
use accepted::held::{CLASSES, Sheet};
use classfile::heads::Used;
use lists::{Lists, record_count};
use model::Refusal;
use saying::{Said, Why, alone, at_word, of_numbers};

// The file is too long.
pub fn too_long() -> Why {
    alone(19)
}

// The first head names something else than one class and its states.
pub fn wrong_own(used: Used) -> Why {
    if used.classes != 36 {
        return of_numbers(9, (used.classes / 36) as u64, 0);
    }
    alone(10)
}

// A number has no name; where none is missing, no more can be said.
fn wrong_gap(gap: Option<Gap>) -> Why {
    match gap {
        Some(Gap::Command(n)) => of_numbers(14, n as u64, 0),
        Some(Gap::State(n)) => of_numbers(15, n as u64, 0),
        None => alone(16),
    }
}

// The states of a class are not the sheet's, or a number has no name. The second head begins at a place of the file.
fn wrong_lists(file: &[u8], from: usize, sheet: Sheet, lists: Lists) -> Why
    requires { from ≤ length file.now }
{
    if let Some(other) = other_class(lists.classes, sheet.body(CLASSES)) {
        let name = class_name(file, from, other);
        return at_word(13, Said::Line, name.start, name.end);
    }
    let names = record_count(lists.names, 32);
    let commands = record_count(lists.commands, 32);
    wrong_gap(sheet_gap(sheet, names, commands))
}

// 17, of an accepted sheet: there are so many own states.
fn wrong_accepted(file: &[u8], from: usize, sheet: Sheet, states: usize, lists: Lists) -> Why
    requires { from ≤ length file.now }
{
    let s = sheet.state_count();
    if states != s {
        return of_numbers(11, states as u64, s as u64);
    }
    let k = sheet.class_count();
    let n = record_count(lists.classes, 36);
    if n != k {
        return of_numbers(12, n as u64, k as u64);
    }
    wrong_lists(file, from, sheet, lists)
}

// 17: a name is missing, or one too many.
fn wrong_names(file: &[u8], from: usize, sheet: &[u8], states: usize, lists: Lists) -> Why
    requires { from ≤ length file.now }
{
    match Sheet::judged(sheet) {
        Ok(sheet) => wrong_accepted(file, from, sheet, states, lists),
        Err(_) => alone(16),
    }
}

// 1 to 9: what is behind the second head is no class sheet.
fn wrong_sheet(number: u64) -> Why {
    match number {
        1..=9 => alone((number - 1) as u8),
        _ => alone(18),
    }
}

// Why there is no text of a sheet. The second head begins at a place of the file.
pub fn wrong_text(
    refusal: Refusal,
    file: &[u8],
    from: usize,
    sheet: &[u8],
    states: usize,
    lists: Lists,
) -> Why
    requires { from ≤ length file.now }
{
    match refusal {
        Refusal::Naming => wrong_names(file, from, sheet, states, lists),
        Refusal::WrittenGuards => alone(17),
        _ => wrong_sheet(u64::from(refusal)),
    }
}
