// From two heads and a class sheet to the class file, or to why there is none.
ghost use Rattle.std.specs.Prelude.{◌≡◌, ◌≤◌, length, take};
ghost use Rattle.writings.specs.Writings.{named};
ghost use Rattle.writing.specs.Writing.{named_of};
ghost use Rattle.classfile.specs.Heads.{stretch, head_of};
ghost use Rattle.classfile.specs.Reads.{Fits, rooms, shown};
ghost use Rattle.writeclass.specs.Made.{one_class, Replied, text_file, second_file, first_file, opened, Prints, Converted};

use crate::reasons::{too_long, wrong_own, wrong_text};
use accepted::held::Sheet;
use classfile::heads::{CLASSES, COMMANDS, NAMES, Used, read_head};
use lists::{Lists, Own};
use model::Refusal;
use saying::Why;
use saying::heads::wrong_line;
use saying::places::in_file;
use writing::write_text;

// The longest file.
const FILE: usize = 262144;

// A class file: the bytes of the input from one place to another, which are the second head, and so many bytes of the text.
#[derive(Clone, Copy)]
pub struct ClassFile {
    pub from: usize,
    pub to: usize,
    pub length: usize,
}

// The text of a sheet's class with these names. The sheet is judged first.
fn written(sheet: &[u8], own: Own, lists: Lists, text: &mut [u8]) -> Result<usize, Refusal>
    ensures { Replied sheet.now (named_of own.entry lists.entry) text.old result text.new }
{
    let sheet = Sheet::judged(sheet)?;
    write_text(sheet, own, lists, text)
}

// The class file of the sheet that starts at a place of the file; its head stands between two places.
fn text_made(
    file: &[u8],
    from: usize,
    start: usize,
    own: Own,
    lists: Lists,
    text: &mut [u8],
) -> Result<ClassFile, Why>
    requires { (from ≤ start) × (start ≤ length file.now) }
    ensures { Prints file.now (text_file file.now text.old (named_of own.entry lists.entry) from start) result text.new }
{
    let sheet = &file[start..];
    let answer = written(sheet, own, lists, text);
    match answer {
        Ok(size) => Ok(ClassFile {
            from,
            to: start,
            length: size,
        }),
        Err(x) => Err(wrong_text(x, file, from, sheet, own.states.len() / 32, lists)),
    }
}

// The same, where the lists fill so much of their room.
fn lists_made(
    file: &[u8],
    from: usize,
    start: usize,
    used: Used,
    own: Own,
    lists: Lists,
    text: &mut [u8],
) -> Result<ClassFile, Why>
    requires from_le_start { (from ≤ start) × (start ≤ length file.now) }
    requires fits { Fits used lists.names.now lists.commands.now lists.classes.now }
    ensures { Prints file.now (text_file file.now text.old (named own.entry.name.now own.entry.states.now (take used.names lists.entry.names.now) (take used.commands lists.entry.commands.now) (take used.classes lists.entry.classes.now)) from start) result text.new }
{
    let filled = Lists {
        names: &lists.names[..used.names],
        commands: &lists.commands[..used.commands],
        classes: &lists.classes[..used.classes],
    };
    text_made(file, from, start, own, filled, text)
}

// The class file of the second head, which begins at a place of the file, and the sheet behind it; the lists have this room.
fn second_made(
    file: &[u8],
    from: usize,
    own: Own,
    names: &mut [u8],
    commands: &mut [u8],
    classes: &mut [u8],
    text: &mut [u8],
) -> Result<ClassFile, Why>
    requires { from ≤ length file.now }
    ensures { Prints file.now (second_file file.now text.old own.entry.name.now own.entry.states.now from (head_of (stretch file.now from (length file.now)) (rooms names.old commands.old classes.old))) result text.new }
{
    let answer = read_head(&file[from..], names, commands, classes);
    match answer {
        Err(bad) => Err(wrong_line(
            file,
            bad.fault,
            in_file(file, from, bad.start),
            in_file(file, from, bad.end),
        )),
        Ok((used, size)) => lists_made(
            file,
            from,
            from + size,
            used,
            own,
            Lists {
                names,
                commands,
                classes,
            },
            text,
        ),
    }
}

// The first head has one class and no commands.
fn is_own(used: Used) -> bool
    ensures { result ≡ one_class used.classes used.commands }
{
    used.classes == 36 && used.commands == 0
}

// The class file of what stands behind the first head, whose lists fill so much of their room.
fn own_made(
    file: &[u8],
    from: usize,
    used: Used,
    lists: Lists,
    text: &mut [u8],
) -> Result<ClassFile, Why>
    requires from_in_bounds { from ≤ length file.now }
    requires fits { Fits used lists.names.now lists.commands.now lists.classes.now }
    ensures { Prints file.now (opened file.now text.old (shown used lists.entry.names.now lists.entry.commands.now lists.entry.classes.now) from) result text.new }
{
    if !is_own(used) {
        return Err(wrong_own(used));
    }
    let own = Own {
        name: &lists.classes[..32],
        states: &lists.names[..used.names],
    };
    let mut second_names = [0u8; NAMES];
    let mut second_commands = [0u8; COMMANDS];
    let mut second_classes = [0u8; CLASSES];
    second_made(
        file,
        from,
        own,
        &mut second_names,
        &mut second_commands,
        &mut second_classes,
        text,
    )
}

// The class file of two heads and a sheet; the lists of the first head have this room.
fn first_made(
    file: &[u8],
    names: &mut [u8],
    commands: &mut [u8],
    classes: &mut [u8],
    text: &mut [u8],
) -> Result<ClassFile, Why>
    ensures { Prints file.now (first_file file.now text.old (head_of file.now (rooms names.old commands.old classes.old))) result text.new }
{
    let answer = read_head(file, names, commands, classes);
    match answer {
        Err(bad) => Err(wrong_line(file, bad.fault, bad.start, bad.end)),
        Ok((used, from)) => {
            let lists = Lists {
                names,
                commands,
                classes,
            };
            own_made(file, from, used, lists, text)
        },
    }
}

// The class file of two heads and a sheet.
pub fn convert(file: &[u8], text: &mut [u8]) -> Result<ClassFile, Why>
    ensures { Converted file.now text.old result text.new }
{
    if FILE < file.len() {
        return Err(too_long());
    }
    let mut names = [0u8; NAMES];
    let mut commands = [0u8; COMMANDS];
    let mut classes = [0u8; CLASSES];
    first_made(file, &mut names, &mut commands, &mut classes, text)
}
