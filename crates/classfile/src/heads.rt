// The head of a class file, read word by word into the three lists.
ghost use Rattle.std.specs.Prelude.{◌≡◌, ◌+◌, ◌≤◌, length};
ghost use Rattle.classfile.specs.Reads.{bad_line, alone, begun, Named, Commanded, classed, stated, ended, ended_buffer, lined, lined_buffer, Fits, Stands, Worded, FieldTurned, HeadRead, Inside};

use crate::fields::{Kind, next_field};
use crate::parts::{Fault, add_class, add_name, add_state, judge_name};
use kinds::is_same;

// Room for the records of 32 names, 64 commands and 8 classes.
pub const NAMES: usize = 1024;

pub const COMMANDS: usize = 2048;

pub const CLASSES: usize = 288;

// The line that is being read: at its beginning, the names, the commands, a class whose name is wanted, or the states of a class: where
// its name stands, and its set so far.
#[derive(Clone, Copy)]
pub enum Line {
    Begins,
    Names,
    Commands,
    Class,
    States(usize, usize, u32),
}

// How many bytes of each list are used.
#[derive(Clone, Copy)]
pub struct Used {
    pub names: usize,
    pub commands: usize,
    pub classes: usize,
}

// What a field comes to: the head goes on in that line, with so much used, or it is over; or something is wrong.
pub type Turn = Result<Option<(Line, Used)>, Fault>;

// What is wrong with a head, and the word that shows it, by its place. The end of a line or of the file can show it too.
#[derive(Clone, Copy)]
pub struct BadLine {
    pub fault: Fault,
    pub start: usize,
    pub end: usize,
}

// A line that may stand once begins; so many bytes of its list are used.
fn once(line: Line, bytes: usize, used: Used) -> Turn
    ensures { result ≡ alone line bytes used }
{
    if 0 < bytes {
        return Err(Fault::LineTwice);
    }
    Ok(Some((line, used)))
}

// The first word of a line.
fn first_word(used: Used, word: &[u8]) -> Turn
    ensures { result ≡ begun used word.now }
{
    if is_same(b"names", word) {
        return once(Line::Names, used.names, used);
    }
    if is_same(b"commands", word) {
        return once(Line::Commands, used.commands, used);
    }
    if is_same(b"class", word) {
        return Ok(Some((Line::Class, used)));
    }
    Err(Fault::UnknownLine)
}

// A word of the names line.
fn name_word(used: Used, names: &mut [u8], word: &[u8]) -> Turn
    requires { used.names ≤ length names.old }
    ensures { Named used names.old word.now result names.new }
{
    add_name(names, used.names, word)?;
    let more = Used {
        names: used.names + 32,
        ..used
    };
    Ok(Some((Line::Names, more)))
}

// A word of the commands line: as `name_word`, but for the field of `Used` that grows.
fn command_word(used: Used, commands: &mut [u8], word: &[u8]) -> Turn
    requires { used.commands ≤ length commands.old }
    ensures { Commanded used commands.old word.now result commands.new }
{
    add_name(commands, used.commands, word)?;
    let more = Used {
        commands: used.commands + 32,
        ..used
    };
    Ok(Some((Line::Commands, more)))
}

// The name of a class, which stands at a place.
fn class_word(used: Used, classes: &[u8], word: &[u8], start: usize, end: usize) -> Turn
    requires { used.classes ≤ length classes.now }
    ensures { result ≡ classed used classes.now word.now start end }
{
    let n = used.classes;
    judge_name(&classes[..n], 36, classes.len() - n, word)?;
    Ok(Some((Line::States(start, end, 0), used)))
}

// A state of the class whose name stands at a place and whose set is this so far.
fn state_word(used: Used, names: &[u8], word: &[u8], start: usize, end: usize, set: u32) -> Turn
    requires { used.names ≤ length names.now }
    ensures { result ≡ stated used names.now word.now start end set }
{
    let n = used.names;
    let more = add_state(&names[..n], set, word)?;
    Ok(Some((Line::States(start, end, more), used)))
}

// A word, which stands at a place.
fn word_turn(
    file: &[u8],
    start: usize,
    end: usize,
    line: Line,
    used: Used,
    names: &mut [u8],
    commands: &mut [u8],
    classes: &[u8],
) -> Turn
    requires start_le_end { (start ≤ end) × (end ≤ length file.now) }
    requires fits { Fits used names.old commands.old classes.now }
    requires stands { Stands file.now line used classes.now }
    ensures { Worded file.now start end line used names.old commands.old classes.now result names.new commands.new }
{
    let word = &file[start..end];
    match line {
        Line::Begins => first_word(used, word),
        Line::Names => name_word(used, names, word),
        Line::Commands => command_word(used, commands, word),
        Line::Class => class_word(used, classes, word, start, end),
        Line::States(a, b, set) => state_word(used, names, word, a, b, set),
    }
}

// The end of a class's line: it has to have states.
fn class_ends(used: Used, classes: &mut [u8], name: &[u8], set: u32) -> Turn
    requires { used.classes + 36 ≤ length classes.old }
    ensures { (result ≡ ended used set) × (classes.new ≡ ended_buffer used name.now set classes.old) }
{
    if set == 0 {
        return Err(Fault::NoStates);
    }
    add_class(classes, used.classes, name, set);
    let more = Used {
        classes: used.classes + 36,
        ..used
    };
    Ok(Some((Line::Begins, more)))
}

// The end of a line; that of an empty line ends the head.
fn line_turn(file: &[u8], line: Line, used: Used, classes: &mut [u8]) -> Turn
    requires { Stands file.now line used classes.old }
    ensures { (result ≡ lined line used) × (classes.new ≡ lined_buffer file.now line used classes.old) }
{
    match line {
        Line::Begins => Ok(None),
        Line::Names | Line::Commands => Ok(Some((Line::Begins, used))),
        Line::Class => Err(Fault::NoClass),
        Line::States(a, b, set) => class_ends(used, classes, &file[a..b], set),
    }
}

// A field of the head.
fn field_turn(
    file: &[u8],
    kind: Kind,
    start: usize,
    end: usize,
    line: Line,
    used: Used,
    names: &mut [u8],
    commands: &mut [u8],
    classes: &mut [u8],
) -> Turn
    requires start_le_end { (start ≤ end) × (end ≤ length file.now) }
    requires fits { Fits used names.old commands.old classes.old }
    requires stands { Stands file.now line used classes.old }
    ensures { FieldTurned file.now kind start end line used names.old commands.old classes.old result names.new commands.new classes.new }
{
    if let Kind::LineEnd = kind {
        return line_turn(file, line, used, classes);
    }
    word_turn(file, start, end, line, used, names, commands, classes)
}

// A head that is wrong, and the word that shows it.
fn wrong_at(fault: Fault, start: usize, end: usize) -> Result<(Used, usize), BadLine>
    ensures { result ≡ bad_line fault start end }
{
    Err(BadLine { fault, start, end })
}

// Reads the head of a class file into the three lists. No count: a step is a field long.
pub fn read_head(
    file: &[u8],
    names: &mut [u8],
    commands: &mut [u8],
    classes: &mut [u8],
) -> Result<(Used, usize), BadLine>
    ensures inside { Inside result file.now names.new commands.new classes.new }
    ensures head_read { HeadRead file.now names.old commands.old classes.old result names.new commands.new classes.new }
{
    let mut line = Line::Begins;
    let mut used = Used {
        names: 0,
        commands: 0,
        classes: 0,
    };
    let mut at = 0;
    loop {
        let field = next_field(file, at);
        let start = field.start;
        at = field.end;
        if let Kind::FileEnd = field.kind {
            return wrong_at(Fault::NoEmptyLine, start, at);
        }
        let turned = field_turn(
            file, field.kind, start, at, line, used, names, commands, classes,
        );
        match turned {
            Ok(Some((next, more))) => {
                line = next;
                used = more;
            }
            Ok(None) => return Ok((used, at)),
            Err(fault) => return wrong_at(fault, start, at),
        }
    }
}
