// From a class file to its sheet, or to why there is none.
ghost use Rattle.std.specs.Prelude.{◌≤◌, length, take};
ghost use Rattle.lists.specs.Lent.{lent, lists_of};
ghost use Rattle.classfile.specs.Heads.{stretch, head_of};
ghost use Rattle.classfile.specs.Reads.{Fits, rooms};
ghost use Rattle.readclass.specs.Made.{size_of, TextRead, Made, Converted};

use crate::reasons::{too_long, wrong_text, wrong_word};
use classfile::heads::{CLASSES, COMMANDS, NAMES, Used, read_head};
use lists::Lists;
use model::Misread;
use reading::read_class;
use saying::Why;
use saying::heads::wrong_line;
use saying::places::in_file;

// The longest file.
const FILE: usize = 1310720;

// The sheet of the class text that starts at a place of the file: how many bytes it has, or why there is none. A table of own states has 32 names, as the names line may have.
fn text_made(file: &[u8], start: usize, lists: Lists, sheet: &mut [u8]) -> Result<usize, Why>
    requires { start ≤ length file.now }
    ensures { TextRead (stretch file.now start (length file.now)) (lists_of lists.entry) sheet.old (size_of result) sheet.new }
{
    let mut table = [0u8; NAMES];
    let answer = read_class(&file[start..], lists, sheet, &mut table);
    match answer {
        Ok((size, _)) => Ok(size),
        Err(Misread::WrongWord(place)) => Err(wrong_word(file, in_file(file, start, place))),
        Err(Misread::Refused(x)) => Err(wrong_text(x, file, start, lists)),
    }
}

// The same, where the lists fill so much of their room.
fn lists_made(
    file: &[u8],
    start: usize,
    used: Used,
    lists: Lists,
    sheet: &mut [u8],
) -> Result<usize, Why>
    requires start_in_bounds { start ≤ length file.now }
    requires fits { Fits used lists.names.now lists.commands.now lists.classes.now }
    ensures { TextRead (stretch file.now start (length file.now)) (lent (take used.names lists.entry.names.now) (take used.commands lists.entry.commands.now) (take used.classes lists.entry.classes.now)) sheet.old (size_of result) sheet.new }
{
    let filled = Lists {
        names: &lists.names[..used.names],
        commands: &lists.commands[..used.commands],
        classes: &lists.classes[..used.classes],
    };
    text_made(file, start, filled, sheet)
}

// The sheet of a class file; the lists have this room.
fn head_made(
    file: &[u8],
    names: &mut [u8],
    commands: &mut [u8],
    classes: &mut [u8],
    sheet: &mut [u8],
) -> Result<usize, Why>
    ensures { Made (head_of file.now (rooms names.old commands.old classes.old)) file.now sheet.old (size_of result) sheet.new }
{
    let answer = read_head(file, names, commands, classes);
    match answer {
        Err(bad) => Err(wrong_line(file, bad.fault, bad.start, bad.end)),
        Ok((used, start)) => {
            let lists = Lists {
                names,
                commands,
                classes,
            };
            lists_made(file, start, used, lists, sheet)
        }
    }
}

// The sheet of a class file.
pub fn convert(file: &[u8], sheet: &mut [u8]) -> Result<usize, Why>
    ensures { Converted file.now sheet.old (size_of result) sheet.new }
{
    if FILE < file.len() {
        return Err(too_long());
    }
    let mut names = [0u8; NAMES];
    let mut commands = [0u8; COMMANDS];
    let mut classes = [0u8; CLASSES];
    head_made(file, &mut names, &mut commands, &mut classes, sheet)
}
