// writeclass: reads two heads and a class sheet from standard input, and writes the class file of that sheet to standard output: the
// second head as it stands, and the class text. The first head names the class and its own states. Where something is refused there is no
// output, and one line on standard error says why.
#![tactic(auto)]

mod converting;
mod gaps;
mod messages;
mod reasons;

ghost use Rattle.std.specs.Prelude.{◌≡◌, length};
ghost use Rattle.writeclass.specs.Made.{Inside};

use converting::{ClassFile, convert};
use messages::say_refused;
use saying::Why;

// Room for one byte more than the longest file that is read.
fn file_room() -> [u8; 262145]
    ensures { length result ≡ 262145 }
{
    [0u8; 262145]
}

// Room for the longest text.
fn text_room() -> [u8; 1259860]
    ensures { length result ≡ 1259860 }
{
    [0u8; 1259860]
}

// Writes the class file, or says why there is none.
fn print(file: &[u8], text: &[u8], outcome: Result<ClassFile, Why>)
    requires { Inside file.now outcome text.now }
{
    match outcome {
        Ok(made) => {
            io::write_all(1, &file[made.from..made.to]);
            io::write_all(1, &text[..made.length]);
        }
        Err(why) => {
            say_refused(file, why);
        }
    }
}

fn main() {
    let mut file = file_room();
    let n = io::read_full(0, &mut file);
    let mut text = text_room();
    let outcome = convert(&file[..n], &mut text);
    print(&file[..n], &text, outcome);
}
