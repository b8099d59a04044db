// What is wrong with a line of a head, and the word that shows it.
use crate::{Message, Said, Why, put};
use classfile::parts::Fault;
use kinds::is_name_char;

// A word has more characters than a name may have.
pub fn is_long(start: usize, end: usize) -> bool {
    if end <= start {
        return false;
    }
    31 < end - start
}

// Every byte from one place of the file to another is a character of names.
fn all_name_chars(file: &[u8], from: usize, to: usize) -> bool {
    for i in from..to.min(file.len()) {
        if !is_name_char(file[i]) {
            return false;
        }
    }
    true
}

// Says why a word is no name.
fn say_no_name(file: &[u8], start: usize, end: usize) {
    if !all_name_chars(file, start, end) {
        put(b" is no name: a name has letters, digits and underscores only");
    } else if is_long(start, end) {
        put(b" is no name: a name has at most 31 characters");
    } else {
        put(b" is no name: it is a word of the class text");
    }
}

// Says what is wrong with a line of the head, behind the word that shows it.
pub fn say_fault(file: &[u8], fault: Fault, start: usize, end: usize) {
    match fault {
        Fault::UnknownLine => put(
            b" begins no line of a head; names, commands and class do, and an empty line ends it",
        ),
        Fault::LineTwice => put(b" begins a line for the second time"),
        Fault::NoName => say_no_name(file, start, end),
        Fault::NameTwice => put(b" stands twice"),
        Fault::TooMany => put(
            b" is one too many: there are at most 32 names, 64 commands and 8 classes",
        ),
        Fault::NotListed => put(
            b" is not among the names; the names line stands before the class lines",
        ),
        Fault::NoClass => put(b"a class line without a name"),
        Fault::NoStates => put(b"a class without states"),
        Fault::NoEmptyLine => put(b"the file ends before the empty line that ends the head"),
    }
}

// A line of a head is wrong; a word shows it, or the end of the line or of the file.
pub fn wrong_line(file: &[u8], fault: Fault, start: usize, end: usize) -> Why {
    let shown = match fault {
        Fault::NoClass | Fault::NoStates | Fault::NoEmptyLine => start,
        _ => end,
    };
    Why {
        message: Message::Head(fault),
        said: Said::Line,
        start,
        end: shown,
        first: 0,
        second: 0,
    }
}
