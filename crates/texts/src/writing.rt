// Texts written into a lent buffer from a place on. Each function answers the place behind its text; what does not fit is cut off at
// the buffer's end.
ghost use Rattle.std.specs.Prelude.{◌≡◌, [], ◌∷◌, ◌<◌, min};
ghost use Rattle.texts.specs.Texts.{Appended, decimal_text, number_text, hex_digit, hex_byte, hex_text};

// The smaller of two numbers.
pub fn least(a: usize, b: usize) -> usize
    ensures { result ≡ min a b }
{
    a.min(b)
}

// One byte.
pub fn append_byte(out: &mut [u8], at: usize, byte: u8) -> usize
    ensures { Appended out.old out.new at (byte ∷ []) result }
{
    if at < out.len() {
        out[at] = byte;
        return at + 1;
    }
    out.len()
}

// A string of bytes.
pub fn append_bytes(out: &mut [u8], at: usize, bytes: &[u8]) -> usize
    ensures { Appended out.old out.new at bytes.now result }
{
    let mut end = least(at, out.len());
    for x in bytes {
        end = append_byte(out, end, *x);
    }
    end
}

// A number's decimal digits, with no leading zeros.
pub fn append_decimal(out: &mut [u8], at: usize, n: u64) -> usize
    ensures { Appended out.old out.new at (decimal_text n) result }
{
    let mut digits = [0u8; 20];
    let k = io::decimal(n, &mut digits);
    append_bytes(out, at, &digits[..k])
}

// A number as a further field: a space, then its decimal digits.
pub fn append_number(out: &mut [u8], at: usize, n: u64) -> usize
    ensures { Appended out.old out.new at (number_text n) result }
{
    let next = append_byte(out, at, b' ');
    append_decimal(out, next, n)
}

// The ASCII code of a digit below 16.
fn hex_digit(d: u8) -> u8
    requires { d < 16 }
    ensures { result ≡ hex_digit d }
{
    if d < 10 { 48 + d } else { 87 + d }
}

// The two hex digits of a byte.
pub fn append_hex_byte(out: &mut [u8], at: usize, byte: u8) -> usize
    ensures { Appended out.old out.new at (hex_byte byte) result }
{
    let next = append_byte(out, at, hex_digit(byte / 16));
    append_byte(out, next, hex_digit(byte % 16))
}

// The hex digits of a string of bytes, in lower case.
pub fn append_hex(out: &mut [u8], at: usize, bytes: &[u8]) -> usize
    ensures { Appended out.old out.new at (hex_text bytes.now) result }
{
    let mut end = least(at, out.len());
    for x in bytes {
        end = append_hex_byte(out, end, *x);
    }
    end
}
