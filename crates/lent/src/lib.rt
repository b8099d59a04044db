// The lent lists are in order: whole records, each that of a name, no name twice, and every bit of a name set has a name.
#![tactic(auto)]

ghost use Rattle.std.specs.Prelude.{◌≡◌, ◌≤◌, ◌<◌, ◌/◌, length};
ghost use Rattle.model.specs.Words.{every, some_in};
ghost use Rattle.grammar.specs.Words.{same};
ghost use Rattle.naming.specs.NameLists.{record_right, records_in, none_twice, list_right, bits_named, lists_right};
ghost use Rattle.lists.specs.Lent.{lists_of, name_record, sets_in, behind};

use kinds::{is_name, is_same};
use lists::{Lists, class_set, name_length, name_record, record_count, record_is};
use model::ChildName;
use records::sets::has_name;

// A record of 32 bytes is that of a name.
pub fn record_right(bytes: &[u8]) -> bool
    requires { length bytes.now ≡ 32 }
    ensures { result ≡ record_right bytes.now }
{
    let n = name_length(bytes);
    let name = &bytes[0..n];
    is_name(name) && record_is(bytes, name)
}

// Every record of a list is that of a name.
fn records_right(list: &[u8], size: usize) -> bool
    requires { 32 ≤ size }
    ensures { result ≡ every record_right (records_in size list.now) }
{
    let n = record_count(list, size);
    for i in 0..n {
        if !record_right(name_record(list, size, i)) {
            return false;
        }
    }
    true
}

// The name of record i stands in the list again, behind it.
fn stands_again(list: &[u8], size: usize, i: usize) -> bool
    requires { (32 ≤ size) × (i < length list.now / size) }
    ensures { result ≡ some_in (same (name_record size list.now i)) (behind (name_record size list.now) (length list.now / size) i) }
{
    let n = record_count(list, size);
    let name = name_record(list, size, i);
    for j in i + 1..n {
        if is_same(name, name_record(list, size, j)) {
            return true;
        }
    }
    false
}

// No name stands twice in the list.
fn all_differ(list: &[u8], size: usize) -> bool
    requires { 32 ≤ size }
    ensures { result ≡ none_twice (records_in size list.now) }
{
    let n = record_count(list, size);
    for i in 0..n {
        if stands_again(list, size, i) {
            return false;
        }
    }
    true
}

// A list has whole records, each that of a name, and no name twice.
pub fn list_right(list: &[u8], size: usize) -> bool
    requires { 32 ≤ size }
    ensures { result ≡ list_right size list.now }
{
    if list.len() % size != 0 {
        return false;
    }
    if !records_right(list, size) {
        return false;
    }
    all_differ(list, size)
}

// Every bit of a name set has a name, where there are that many names.
pub fn bits_named(names: usize, set: u32) -> bool
    ensures { result ≡ bits_named names set }
{
    for i in 0..32 {
        if has_name(set, ChildName(i)) & (names <= i as usize) {
            return false;
        }
    }
    true
}

// Every bit of every class's name set has a name, where there are that many names.
fn sets_named(names: usize, classes: &[u8]) -> bool
    ensures { result ≡ every (bits_named names) (sets_in classes.now) }
{
    let n = record_count(classes, 36);
    for i in 0..n {
        if !bits_named(names, class_set(classes, i)) {
            return false;
        }
    }
    true
}

// The lent lists are in order: no refusal 17 by them, whatever the text.
pub fn lists_right(lists: Lists) -> bool
    ensures { result ≡ lists_right (lists_of lists.entry) }
{
    if !list_right(lists.names, 32) {
        return false;
    }
    if !list_right(lists.commands, 32) {
        return false;
    }
    if !list_right(lists.classes, 36) {
        return false;
    }
    sets_named(record_count(lists.names, 32), lists.classes)
}
