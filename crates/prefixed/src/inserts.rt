// Room for one more record in a string of guard records.
ghost use Rattle.std.specs.Prelude.{◌≡◌, [], ◌+◌, ◌*◌, ◌≤◌, length};
ghost use Rattle.std.proofs.lemmas.List.Edits.{sets};
ghost use Rattle.encoding.specs.Records.{bytes8};
ghost use Rattle.ordering.specs.Ordering.{atom_record};
ghost use Rattle.prefixed.specs.Inserting.{opened, with_record};

use pen::{put_bytes, put_four};

// Moves the bytes from a place to another up by eight.
fn open_gap(bytes: &mut [u8], from: usize, to: usize)
    requires { (from ≤ to) × (to + 8 ≤ length bytes.old) }
    ensures { bytes.new ≡ opened from to bytes.old }
{
    bytes.copy_within(from..to, from + 8);
}

// Writes a record: kind, pattern, two zero bytes, name set.
fn write_record(bytes: &mut [u8], at: usize, kind: u8, pattern: u8, set: u32)
    ensures { bytes.new ≡ sets bytes.old at (bytes8 (atom_record kind pattern set) []) }
{
    let next = put_four(bytes, at, kind, pattern, 0, 0);
    put_bytes(bytes, next, &set.to_le_bytes());
}

// One record more, before the record at a place, where there are so many.
pub fn insert(bytes: &mut [u8], at: usize, count: usize, kind: u8, pattern: u8, set: u32)
    requires { (at ≤ count) × (count * 8 + 8 ≤ length bytes.old) }
    ensures { bytes.new ≡ with_record at count (atom_record kind pattern set) bytes.old }
{
    let from = at * 8;
    open_gap(bytes, from, count * 8);
    write_record(bytes, from, kind, pattern, set);
}
