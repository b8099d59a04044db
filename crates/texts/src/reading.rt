// Texts read: the fields of a line, numbers from 0 to 255, strings of bytes in hex.
ghost use Rattle.std.specs.Prelude.{◌≡◌, ◌<◌, ◌||◌, ltb, MatchOption, IfSome, Some, None};
ghost use Rattle.std.proofs.lemmas.List.Edits.{sets};
ghost use Rattle.io.specs.Counts.{IsPrefixLen};
ghost use Rattle.texts.specs.Fields.{FindsNext, occurs, before, behind, digit_value, picked, number_of, hex_value, hex_digits, pair_value, hex_bytes, Decodes};

use crate::writing::append_byte;

// Where a byte stands next, from a place on.
pub fn find(bytes: &[u8], from: usize, byte: u8) -> Option<usize>
    ensures { FindsNext byte bytes.now from result }
{
    for at in from..bytes.len() {
        if bytes[at] == byte {
            return Some(at);
        }
    }
    None
}

// How often a byte occurs.
pub fn count(bytes: &[u8], byte: u8) -> usize
    ensures { result ≡ occurs byte bytes.now }
{
    let mut n = 0;
    for x in bytes {
        if *x == byte {
            n += 1;
        }
    }
    n
}

// The first field of a line: what stands before its first space.
pub fn first_field(line: &[u8]) -> &[u8]
    ensures { result.now ≡ before 32 line.now }
{
    match find(line, 0, b' ') {
        Some(end) => &line[..end],
        None => line,
    }
}

// The other fields of a line: what stands behind its first space.
pub fn other_fields(line: &[u8]) -> &[u8]
    ensures { result.now ≡ behind 32 line.now }
{
    match find(line, 0, b' ') {
        Some(end) => &line[end + 1..],
        None => &[],
    }
}

// The value of a decimal digit.
fn digit_value(byte: u8) -> Option<usize>
    ensures { MatchOption result (digit_value byte ≡ 10) (λ d. (d < 10) × (d ≡ digit_value byte)) }
{
    match byte {
        b'0'..=b'9' => Some((byte - b'0') as usize),
        _ => None,
    }
}

// A number no less than the least that is written with so many digits, and no more than 255.
fn in_range(value: usize, least: usize) -> Option<u8>
    ensures { result ≡ picked (ltb value least || ltb 255 value) None (Some value) }
{
    if value < least || 255 < value {
        return None;
    }
    Some(value as u8)
}

// A decimal number 0 to 255 with no leading zeros.
pub fn read_number(field: &[u8]) -> Option<u8>
    ensures { result ≡ number_of field.now }
{
    match field {
        [z] => in_range(digit_value(*z)?, 0),
        [y, z] => {
            let tens = digit_value(*y)?;
            let ones = digit_value(*z)?;
            in_range(10 * tens + ones, 10)
        }
        [x, y, z] => {
            let hundreds = digit_value(*x)?;
            let tens = digit_value(*y)?;
            let ones = digit_value(*z)?;
            in_range(100 * hundreds + 10 * tens + ones, 100)
        }
        _ => None,
    }
}

// The value of a lower-case hex digit.
fn hex_value(byte: u8) -> Option<u8>
    ensures { MatchOption result (hex_value byte ≡ 16) (λ d. (d < 16) × (d ≡ hex_value byte)) }
{
    match byte {
        b'0'..=b'9' => Some(byte - b'0'),
        b'a'..=b'f' => Some(byte - b'a' + 10),
        _ => None,
    }
}

// Every byte is a lower-case hex digit.
fn all_hex(field: &[u8]) -> bool
    ensures { result ≡ hex_digits field.now }
{
    for x in field {
        if hex_value(*x).is_none() {
            return false;
        }
    }
    true
}

// The byte that two hex digits stand for; what is no digit counts as 0.
fn pair_value(high: u8, low: u8) -> u8
    ensures { result ≡ pair_value high low }
{
    let sixteens = hex_value(high).unwrap_or(0);
    let ones = hex_value(low).unwrap_or(0);
    sixteens * 16 + ones
}

// The bytes that hex digits stand for, as many as the buffer holds.
fn unpack(field: &[u8], out: &mut [u8])
    ensures { out.new ≡ sets out.old 0 (hex_bytes field.now) }
{
    for i in 0..field.len() / 2 {
        append_byte(out, i, pair_value(field[2 * i], field[2 * i + 1]));
    }
}

// A string of bytes in lower-case hex, `-` for the empty one, decoded into a lent buffer: how many bytes they are. Where the field is not
// right, or the buffer has no room, nothing is written.
pub fn decode(field: &[u8], out: &mut [u8]) -> Option<usize>
    ensures within { IfSome result (λ n. IsPrefixLen n out.new) }
    ensures decoded { Decodes field.now out.old out.new result }
{
    let n = field.len();
    if n == 0 {
        return None;
    }
    if n == 1 {
        if field[0] == b'-' {
            return Some(0);
        }
        return None;
    }
    let right = (n % 2 == 0) & ((n / 2 <= out.len()) & all_hex(field));
    if !right {
        return None;
    }
    unpack(field, out);
    Some(n / 2)
}
