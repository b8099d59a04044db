// What every question line has: strings of bytes among its fields. What a string that is read, or is wrong, makes of the line's answer is in
// specs/Strings.antt.
#![tactic(auto)]

ghost use Rattle.std.specs.Prelude.{ℕ, List, ◌≡◌, length};
ghost use Rattle.texts.specs.Texts.{Appended};
ghost use Rattle.strings.specs.Strings.{with_string, Writes};

use lines::answers::bad_line;
use texts::reading::{decode, first_field, other_fields};

// Room for a string of bytes: a line of at most 1,048,576 bytes has none that is longer.
pub fn blank() -> [u8; 524288]
    ensures { length result ≡ 524288 }
{
    [0u8; 524288]
}

// The first of some fields is read as a string of bytes, and the question goes on with it and the others; where it is wrong, the line is bad.
pub fn with_string<F: FnOnce(&mut [u8], &[u8], &mut [u8]) -> usize>(
    fields: &[u8],
    out: &mut [u8],
    then: F,
) -> usize
    requires { F.IsAlwaysCallable then }
    ensures { (line : List ℕ → List ℕ → List ℕ) → Writes (F.post then) line → Appended out.old out.new 0 (with_string fields.now line) result }
{
    let mut string = blank();
    let Some(n) = decode(first_field(fields), &mut string) else {
        return bad_line(out);
    };
    then(&mut string[..n], other_fields(fields), out)
}
