// The ends of a sheet that is written from a class text: its contents and its child classes; and names' records, for the table beside it.
#![tactic(auto)]

ghost use Rattle.std.specs.Prelude.{◌≡◌, ◌<◌};
ghost use Rattle.pen.specs.Writing.{Puts};
ghost use Rattle.naming.specs.NameLists.{padded};
ghost use Rattle.lists.specs.Lent.{sets_in};
ghost use Rattle.own.specs.Ahead.{names_from};
ghost use Rattle.laying.specs.Laying.{entry, contents_bytes, number_bytes, zeros_behind, sets_bytes, table_bytes};

use lists::{class_set, record_count};
use own::next_named;
use pen::{put_bytes, put_one, put_two};

// One entry of the contents: where a body starts, and its length.
fn put_entry(out: &mut [u8], at: usize, start: usize, size: usize) -> usize
    ensures { Puts (entry start size) out.old at out.new result }
{
    let next = put_two(out, at, start);
    put_two(out, next, size)
}

// The contents: the bodies follow one another from byte 24 on.
pub fn write_contents(out: &mut [u8], sizes: [u16; 6]) -> usize
    ensures { Puts (contents_bytes 24 sizes) out.old 0 out.new result }
{
    let mut end: usize = 0;
    let mut start: usize = 24;
    for k in sizes.iter() {
        let size = *k as usize;
        end = put_entry(out, end, start, size);
        start += size;
    }
    end
}

// A number in four bytes, low byte first.
pub fn put_number(out: &mut [u8], at: usize, n: u32) -> usize
    ensures { Puts (number_bytes n) out.old at out.new result }
{
    let low = n % 65536;
    let high = n / 65536;
    put_entry(out, at, low as usize, high as usize)
}

// The body of the child classes: the name set of each.
pub fn write_classes(classes: &[u8], out: &mut [u8], at: usize) -> usize
    ensures { Puts (sets_bytes (sets_in classes.now)) out.old at out.new result }
{
    let n = record_count(classes, 36);
    let mut end = at;
    for i in 0..n {
        end = put_number(out, end, class_set(classes, i));
    }
    end
}

// A name's record: its bytes, and zeros up to 32.
pub fn put_name(out: &mut [u8], at: usize, name: &[u8]) -> usize
    ensures { Puts (padded name.now) out.old at out.new result }
{
    let end = put_bytes(out, at, name);
    put_zeros(out, end, name.len())
}

// Zeros behind the first n of 32 bytes.
fn put_zeros(out: &mut [u8], at: usize, n: usize) -> usize
    ensures { Puts (zeros_behind n) out.old at out.new result }
{
    let mut end = at;
    for _ in n..32 {
        end = put_one(out, end, 0);
    }
    end
}

// The table of own states: the record of each name that stands behind state:, in order.
pub fn write_table(text: &[u8], out: &mut [u8]) -> usize
    ensures { Puts (table_bytes (names_from text.now 2 26 0)) out.old 0 out.new result }
{
    let mut end: usize = 0;
    let mut at = 0;
    while let Some((start, stop)) = next_named(text, at, 2, 26) {
        end = put_name(out, end, &text[start..stop]);
        at = stop;
    }
    end
}
