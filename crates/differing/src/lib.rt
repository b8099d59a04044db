// No name stands twice among those ahead in a text.
#![tactic(auto)]

ghost use Rattle.std.specs.Prelude.{◌≡◌, ◌<◌};
ghost use Rattle.model.specs.Words.{every, some_in, listed};
ghost use Rattle.grammar.specs.Words.{same};
ghost use Rattle.lists.specs.Lent.{behind};
ghost use Rattle.naming.specs.NameLists.{none_twice};
ghost use Rattle.own.specs.Ahead.{names_from};
ghost use Rattle.own.specs.Held.{Kinds, held, none_of, Places};

use kinds::is_same;
use own::{among_held, empty_table, hold, name_held, next_named};

// Name i of a table stands in it again, behind that place.
fn held_again(text: &[u8], table: &[usize], count: usize, i: usize) -> bool
    requires { Places text.now table.now count × (i < count) }
    ensures { result ≡ some_in (same (held text.now table.now i)) (behind (held text.now table.now) count i) }
{
    let name = name_held(text, table, count, i);
    for j in i + 1..count {
        if is_same(name, name_held(text, table, count, j)) {
            return true;
        }
    }
    false
}

// No name stands twice in a table.
fn held_differ(text: &[u8], table: &[usize], count: usize) -> bool
    requires { Places text.now table.now count }
    ensures { result ≡ none_twice (listed 0 count (held text.now table.now)) }
{
    for i in 0..count {
        if held_again(text, table, count, i) {
            return false;
        }
    }
    true
}

// None of the names from a place on is in a table.
fn none_held(text: &[u8], table: &[usize], count: usize, at: usize, kind: u8, stop: u8) -> bool
    requires { Kinds kind stop × Places text.now table.now count }
    ensures { result ≡ every (none_of (listed 0 count (held text.now table.now))) (names_from text.now kind stop at) }
{
    let mut from = at;
    while let Some((start, end)) = next_named(text, from, kind, stop) {
        if among_held(text, table, count, &text[start..end]).is_some() {
            return false;
        }
        from = end;
    }
    true
}

// No name stands twice among those from a place on: table by table, each name against those of its table, and these against all that follow.
pub fn all_differ(text: &[u8], at: usize, kind: u8, stop: u8) -> bool
    requires { Kinds kind stop }
    ensures { result ≡ none_twice (names_from text.now kind stop at) }
{
    let mut table = empty_table();
    let mut from = at;
    // No count: a step is a table of names long.
    loop {
        let holding = hold(text, from, kind, stop, &mut table);
        if !held_differ(text, &table, holding.count) {
            return false;
        }
        if holding.count < 8192 {
            return true;
        }
        if !none_held(text, &table, holding.count, holding.rest, kind, stop) {
            return false;
        }
        from = holding.rest;
    }
}
