// readclass: reads a class file from standard input, and writes its class sheet to standard output. A file that is refused gives no sheet,
// and one line on standard error that says where and why.
#![tactic(auto)]

mod blame;
mod converting;
mod messages;
mod reasons;
mod sizing;
#[cfg(test)]
mod tests;

ghost use Rattle.std.specs.Prelude.{◌≡◌, length};

use converting::convert;
use messages::say_refused;
use texts::writing::least;

// The longest sheet.
const SHEET: usize = 18616;

// Room for one byte more than the longest file that is read.
fn room() -> [u8; 1310721]
    ensures { length result ≡ 1310721 }
{
    [0u8; 1310721]
}

fn main() {
    let mut file = room();
    let n = io::read_full(0, &mut file);
    let mut sheet = [0u8; SHEET];
    match convert(&file[..n], &mut sheet) {
        Ok(size) => {
            let k = least(size, SHEET);
            io::write_all(1, &sheet[..k]);
        }
        Err(why) => {
            say_refused(&file[..n], why);
        }
    }
}
