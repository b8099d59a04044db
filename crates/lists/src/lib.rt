// The lent lists: child state names, commands, child classes with their name sets. What they mean is in naming/specs, what the functions
// promise in specs/, what is shown of them in proofs/.
#![tactic(auto)]

ghost use Rattle.std.specs.Prelude.{◌≡◌, ◌≤◌, ◌<◌, ◌/◌, length, get_or, drop};
ghost use Rattle.grammar.specs.Words.{same};
ghost use Rattle.naming.specs.NameLists.{padded, records_in};
ghost use Rattle.lists.specs.Lent.{name_record, found_from, sets_in, all_zero, Characters, Count};

use kinds::is_same;
use records::words::u32_at;

// The three lists, as a caller lends them: child state names, commands, child classes with their name sets.
#[derive(Clone, Copy)]
pub struct Lists<'a> {
    pub names: &'a [u8],
    pub commands: &'a [u8],
    pub classes: &'a [u8],
}

// What is a class's own, as a caller lends it: its name, and the table of its states' names.
#[derive(Clone, Copy)]
pub struct Own<'a> {
    pub name: &'a [u8],
    pub states: &'a [u8],
}

// Every byte of a record from a place on is zero.
fn zeros_from(bytes: &[u8], at: usize) -> bool
    requires { at ≤ length bytes.now }
    ensures { result ≡ all_zero (drop at bytes.now) }
{
    bytes[at..].iter().all(|x| *x == 0)
}

// A record of 32 bytes is that of the word: the word's bytes, and zeros behind them.
pub fn record_is(bytes: &[u8], word: &[u8]) -> bool
    requires { length bytes.now ≡ 32 }
    ensures { result ≡ same bytes.now (padded word.now) }
{
    let n = word.len();
    if 32 < n {
        return false;
    }
    if !is_same(&bytes[0..n], word) {
        return false;
    }
    zeros_from(bytes, n)
}

// How many records of that many bytes a list has.
pub fn record_count(list: &[u8], size: usize) -> usize
    requires { 0 < size }
    ensures { Count list.now size result }
{
    list.len() / size
}

// The name record of record i of a list of records of that many bytes.
pub fn name_record(list: &[u8], size: usize, i: usize) -> &[u8]
    requires { (32 ≤ size) × (i < length list.now / size) }
    ensures { (result.now ≡ name_record size list.now i) × (length result.now ≡ 32) }
{
    let from = i * size;
    let to = from + 32;
    &list[from..to]
}

// How many bytes of a record stand before the first zero.
pub fn name_length(bytes: &[u8]) -> usize
    ensures { Characters bytes.now result }
{
    for (n, x) in bytes.iter().enumerate() {
        if *x == 0 {
            return n;
        }
    }
    bytes.len()
}

// The name set of child class i; none past the end of the list.
pub fn class_set(classes: &[u8], i: usize) -> u32
    ensures { result ≡ get_or (sets_in classes.now) i 0 }
{
    if classes.len() / 36 <= i {
        return 0;
    }
    let from = i * 36;
    u32_at(&classes[from..], 32)
}

// The number of a name in a list of records of that many bytes.
pub fn number_in(list: &[u8], size: usize, word: &[u8]) -> Option<usize>
    requires { 32 ≤ size }
    ensures { result ≡ found_from 0 (records_in size list.now) (padded word.now) }
{
    let n = record_count(list, size);
    for i in 0..n {
        if record_is(name_record(list, size, i), word) {
            return Some(i);
        }
    }
    None
}
