// Why a class file is refused, by what was found to be wrong. The numbers of the messages are those of the lines in `messages`.
ghost use Rattle.std.specs.Prelude.{◌≤◌, length};

use crate::blame::name_to_blame;
use crate::sizing::limit_passed;
use kinds::END;
use lists::Lists;
use model::Refusal;
use saying::heads::is_long;
use saying::places::in_file;
use saying::{Said, Why, alone, at_word};
use words::next_word;

// The message of the first cause of `blame`; before it stand those of the limits of `sizing`.
const NAMES: u8 = 7;

// The file is too long.
pub fn too_long() -> Why {
    alone(17)
}

// 16: the word that stands at a place of the file cannot stand there, or the file ends.
pub fn wrong_word(file: &[u8], place: usize) -> Why {
    let word = next_word(file, place);
    if word.kind == END {
        return at_word(14, Said::Column, place, place);
    }
    if is_long(word.start, word.end) {
        return at_word(16, Said::Column, place, word.end);
    }
    at_word(15, Said::Column, place, word.end)
}

// 17: a name of the class text, which starts at a place of the file.
fn wrong_name(file: &[u8], start: usize, text: &[u8], lists: Lists) -> Why
    requires { start ≤ length file.now }
{
    match name_to_blame(text, lists) {
        Some(blame) => at_word(
            NAMES + blame.cause as u8,
            Said::Column,
            in_file(file, start, blame.start),
            in_file(file, start, blame.end),
        ),
        None => alone(18),
    }
}

// 18: a limit.
fn wrong_size(file: &[u8], start: usize, text: &[u8], lists: Lists) -> Why
    requires { start ≤ length file.now }
{
    match limit_passed(text, lists) {
        Some((limit, at)) => at_word(limit as u8, Said::Column, in_file(file, start, at), 0),
        None => alone(19),
    }
}

// Why a class text is refused.
pub fn wrong_text(refusal: Refusal, file: &[u8], start: usize, lists: Lists) -> Why
    requires { start ≤ length file.now }
{
    let text = &file[start..];
    match refusal {
        Refusal::Naming => wrong_name(file, start, text, lists),
        Refusal::Limit => wrong_size(file, start, text, lists),
        _ => alone(20),
    }
}
