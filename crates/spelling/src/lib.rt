// The words of a class text, written into a lent buffer: names, indents, the children that are spoken of, and sets of names.
#![tactic(auto)]

ghost use Rattle.std.specs.Prelude.{◌≡◌, ◌≤◌};
ghost use Rattle.pen.specs.Writing.{Puts};
ghost use Rattle.naming.specs.NameLists.{characters};
ghost use Rattle.records.specs.Patterns.{pattern_as};
ghost use Rattle.writings.specs.Layout.{name_at, indent, kin_text, names_of, commas, set_text};
ghost use Rattle.spelling.specs.Spelling.{numbers_from, names_from, row, braced, First};

use lists::{name_length, name_record, record_count};
use model::ChildName;
use pen::put_bytes;
use records::kinds::Pattern;
use records::sets::has_name;

// What stands before the first zero of a record.
pub fn put_characters(out: &mut [u8], at: usize, bytes: &[u8]) -> usize
    ensures { Puts (characters bytes.now) out.old at out.new result }
{
    let n = name_length(bytes);
    put_bytes(out, at, &bytes[0..n])
}

// Name i of a list of records of that many bytes; nothing past the end of the list.
pub fn put_name(out: &mut [u8], at: usize, list: &[u8], size: usize, i: usize) -> usize
    requires { 32 ≤ size }
    ensures { Puts (name_at size list.now i) out.old at out.new result }
{
    if record_count(list, size) <= i {
        return at;
    }
    put_characters(out, at, name_record(list, size, i))
}

// Two blanks a level.
pub fn put_indent(out: &mut [u8], at: usize, level: usize) -> usize
    ensures { Puts (indent level) out.old at out.new result }
{
    let mut end = at;
    for _ in 0..level {
        end = put_bytes(out, end, b"  ");
    }
    end
}

// The children that a guard or a do speaks of: the word for all, or the name of a class.
pub fn put_kin(out: &mut [u8], at: usize, classes: &[u8], pattern: Pattern) -> usize
    ensures { Puts (kin_text classes.now (pattern_as pattern)) out.old at out.new result }
{
    match pattern {
        Pattern::Everyone => put_bytes(out, at, b"FwCHILDREN"),
        Pattern::OfClass(class) => put_name(out, at, classes, 36, class.0 as usize),
    }
}

// The first name of the set, if it has one.
fn first_name(set: u32) -> Option<u8>
    ensures { First set result }
{
    (0..32).find(|i| has_name(set, ChildName(*i)))
}

// The names of the set from a name on, a comma before each.
fn put_commas(out: &mut [u8], at: usize, names: &[u8], set: u32, from: u8) -> usize
    ensures { Puts (commas (names_from names.now set from)) out.old at out.new result }
{
    let mut end = at;
    for i in from..32 {
        if has_name(set, ChildName(i)) {
            let comma = put_bytes(out, end, b", ");
            end = put_name(out, comma, names, 32, i as usize);
        }
    }
    end
}

// The names of the set, a comma between two.
fn put_row(out: &mut [u8], at: usize, names: &[u8], set: u32) -> usize
    ensures { Puts (row (names_from names.now set 0)) out.old at out.new result }
{
    match first_name(set) {
        Some(first) => {
            let end = put_name(out, at, names, 32, first as usize);
            put_commas(out, end, names, set, first + 1)
        }
        None => at,
    }
}

// The names of the set in braces.
fn put_braced(out: &mut [u8], at: usize, names: &[u8], set: u32) -> usize
    ensures { Puts (braced (names_from names.now set 0)) out.old at out.new result }
{
    let a = put_bytes(out, at, b"{");
    let b = put_row(out, a, names, set);
    put_bytes(out, b, b"}")
}

// The names of a set: braces stand round them where there is not exactly one.
pub fn put_set(out: &mut [u8], at: usize, names: &[u8], set: u32) -> usize
    ensures { Puts (set_text (names_of names.now set)) out.old at out.new result }
{
    if set.count_ones() == 1 {
        return put_row(out, at, names, set);
    }
    put_braced(out, at, names, set)
}
