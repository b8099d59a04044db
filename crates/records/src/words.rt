// Numbers in a byte string: unsigned, low byte first. Past the end every byte is 0.
ghost use Rattle.std.specs.Prelude.{◌≡◌, ◌<◌, ◌/◌, length};
ghost use Rattle.records.specs.Bytes.{byte, u16, u32, record_at};
ghost use Rattle.records.specs.Bytes.{in_fours, in_eights};

// A byte as a number.
fn wide(x: u8) -> usize
    ensures { (result ≡ x) × (result < 256) }
{
    x as usize
}

// The byte at a place, in its own width.
pub fn narrow_at(b: &[u8], at: usize) -> u8
    ensures { result ≡ byte b.now at }
{
    if at < b.len() {
        return b[at];
    }
    0
}

// The byte at a place, as a number to count with.
pub fn byte_at(b: &[u8], at: usize) -> usize
    ensures { (result ≡ byte b.now at) × (result < 256) }
{
    wide(narrow_at(b, at))
}

// The two bytes at a place.
pub fn u16_at(b: &[u8], at: usize) -> usize
    requires { at < 1099511627776 }
    ensures { (result ≡ u16 b.now at) × (result < 65536) }
{
    let low = byte_at(b, at);
    let high = byte_at(b, at + 1);
    low + 256 * high
}

// The four bytes at a place: a name set.
pub fn u32_at(b: &[u8], at: usize) -> u32
    requires { at < 1099511627776 }
    ensures { result ≡ u32 b.now at }
{
    let first = byte_at(b, at);
    let second = byte_at(b, at + 1);
    let third = byte_at(b, at + 2);
    let fourth = byte_at(b, at + 3);
    (first + 256 * second + 65536 * third + 16777216 * fourth) as u32
}

// Record i of a string of records of 8 bytes.
pub fn record_at(b: &[u8], i: usize) -> &[u8]
    requires { i < length b.now / 8 }
    ensures { result.now ≡ record_at b.now i }
{
    let from = i * 8;
    let to = from + 8;
    &b[from..to]
}

// How many records of 4 bytes a body has.
pub fn in_fours(b: &[u8]) -> usize
    ensures { result ≡ in_fours b.now }
{
    b.len() / 4
}

// How many records of 8 bytes a body has.
pub fn in_eights(b: &[u8]) -> usize
    ensures { result ≡ in_eights b.now }
{
    b.len() / 8
}
