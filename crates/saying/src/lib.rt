// Says why a file is refused: one line on standard error. What a program can say of its files stands in lines of its own; what is said of
// the head of a class file is the same in all of them.
#![tactic(auto)]

pub mod heads;
pub mod places;

use classfile::parts::Fault;
use heads::say_fault;
use places::place_of;

// How much of a place is said: nothing, its line, or its line and its column.
#[derive(Clone, Copy)]
pub enum Said {
    Nowhere,
    Line,
    Column,
}

// As a number: 0, 1, and 2 or more.
impl From<u8> for Said {
    ghost use Rattle.std.specs.Prelude.{◌≡◌, cond, eqb};
    ghost use Rattle.saying.specs.declared.Said.TheVariants.{Nowhere, Line, Column};

    ghost from_gives = { λ n s. s ≡ cond (eqb n 0) Nowhere (cond (eqb n 1) Line Column) };

    fn from(n: u8) -> Said {
        match n {
            0 => Said::Nowhere,
            1 => Said::Line,
            _ => Said::Column,
        }
    }
}

// What is said: one of the program's lines, by its number, or what is wrong with a line of a head.
#[derive(Clone, Copy)]
pub enum Message {
    Numbered(u8),
    Head(Fault),
}

// Why a file is refused: what is said of it, and the word that shows it, by its place in the file; where no word does, it ends where it
// starts, or before. The numbers stand where the message has a #.
#[derive(Clone, Copy)]
pub struct Why {
    pub message: Message,
    pub said: Said,
    pub start: usize,
    pub end: usize,
    pub first: u64,
    pub second: u64,
}

// What is said of a word, or of a place where no word shows it.
pub fn at_word<S: Into<Said>>(message: u8, said: S, start: usize, end: usize) -> Why {
    Why {
        message: Message::Numbered(message),
        said: said.into(),
        start,
        end,
        first: 0,
        second: 0,
    }
}

// What is said of no place, with two numbers.
pub fn of_numbers(message: u8, first: u64, second: u64) -> Why {
    Why {
        message: Message::Numbered(message),
        said: Said::Nowhere,
        start: 0,
        end: 0,
        first,
        second,
    }
}

// What is said alone.
pub fn alone(message: u8) -> Why {
    of_numbers(message, 0, 0)
}

// At most so many bytes of a word are shown.
const SHOWN: usize = 40;

// Some bytes on standard error.
fn put(bytes: &[u8]) {
    io::write_all(2, bytes);
}

// One byte.
fn put_byte(b: u8) {
    put(&[b]);
}

// A number's decimal digits.
fn put_number(n: u64) {
    let mut digits = [0u8; 20];
    let k = io::decimal(n, &mut digits);
    put(&digits[..k]);
}

// line LINE, column COLUMN:
fn say_place(file: &[u8], said: Said, place: usize) {
    if matches!(said, Said::Nowhere) {
        return;
    }
    let spot = place_of(file, place);
    put(b"line ");
    put_number(spot.line as u64);
    if matches!(said, Said::Column) {
        put(b", column ");
        put_number(spot.column as u64);
    }
    put(b": ");
}

// A byte can be shown.
fn is_shown(b: u8) -> bool {
    matches!(b, b'!'..=b'~')
}

// A word in quotes, with a question mark for a byte that cannot be shown; of a long one the first bytes.
fn say_quoted(word: &[u8]) {
    put(b"\"");
    for b in word.iter().take(SHOWN) {
        put_byte(if is_shown(*b) { *b } else { b'?' });
    }
    if SHOWN < word.len() {
        put(b"..");
    }
    put(b"\"");
}

// A word of the file, if there is one; a byte that cannot be shown, by its number.
fn say_word(file: &[u8], start: usize, end: usize) {
    let to = end.min(file.len());
    if to <= start {
        return;
    }
    let first = file[start];
    if to - start == 1 && !is_shown(first) {
        put(b"a byte ");
        put_number(u64::from(first));
        return;
    }
    say_quoted(&file[start..to]);
}

// A message; each # in it is a number, the first one, then the second.
fn put_message(line: &[u8], first: u64, second: u64) {
    let mut number = first;
    for b in line {
        if *b == b'#' {
            put_number(number);
            number = second;
        } else {
            put_byte(*b);
        }
    }
}

// Line n of some lines.
fn line_of(lines: &[u8], n: u8) -> &[u8] {
    lines.split(|b| *b == b'\n').nth(n as usize).unwrap_or(&[])
}

// What is wrong, behind the word that shows it.
fn say_message(file: &[u8], why: Why, lines: &[u8]) {
    match why.message {
        Message::Numbered(n) => put_message(line_of(lines, n), why.first, why.second),
        Message::Head(fault) => say_fault(file, fault, why.start, why.end),
    }
}

// The line.
pub fn say(file: &[u8], why: Why, lines: &[u8]) {
    say_place(file, why.said, why.start);
    say_word(file, why.start, why.end);
    say_message(file, why, lines);
    put(b"\n");
}
