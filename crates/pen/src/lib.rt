// Writing bytes into a lent buffer: past its end nothing is stored, and a place past the last number is the last number.
#![tactic(auto)]

ghost use Rattle.std.specs.Prelude.{◌≡◌, [], ◌∷◌, set};
ghost use Rattle.pen.specs.Writing.{behind, two, Puts};

// A byte at a place of the buffer; past its end nothing is stored.
pub fn store(out: &mut [u8], at: usize, byte: u8)
    ensures { out.new ≡ set out.old at byte }
{
    if at < out.len() {
        out[at] = byte;
    }
}

// The next place; behind the last one there is none.
fn next_place(at: usize) -> usize
    ensures { result ≡ behind at 1 }
{
    at.saturating_add(1)
}

// One byte, and the place behind it.
pub fn put_one(out: &mut [u8], at: usize, byte: u8) -> usize
    ensures { Puts (byte ∷ []) out.old at out.new result }
{
    store(out, at, byte);
    next_place(at)
}

// Bytes, one behind the other.
pub fn put_bytes(out: &mut [u8], at: usize, bytes: &[u8]) -> usize
    ensures { Puts bytes.now out.old at out.new result }
{
    let mut end = at;
    for byte in bytes {
        end = put_one(out, end, *byte);
    }
    end
}

// A number in two bytes, low byte first; what two bytes do not hold of it is lost.
pub fn put_two(out: &mut [u8], at: usize, n: usize) -> usize
    ensures { Puts (two n) out.old at out.new result }
{
    put_bytes(out, at, &[(n % 256) as u8, (n / 256 % 256) as u8])
}

// Four bytes, and the place behind them.
pub fn put_four(out: &mut [u8], at: usize, b0: u8, b1: u8, b2: u8, b3: u8) -> usize
    ensures { Puts (b0 ∷ b1 ∷ b2 ∷ b3 ∷ []) out.old at out.new result }
{
    put_bytes(out, at, &[b0, b1, b2, b3])
}
