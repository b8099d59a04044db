// The names of a text: refusal 17 by the text itself. What each word asks of the next is in specs/, what is shown of it in proofs/.
#![tactic(auto)]

ghost use Rattle.std.specs.Prelude.{◌≡◌, false, [], length, ◌≤◌};
ghost use Rattle.naming.specs.NameLists.{records_in, listed_in};
ghost use Rattle.lists.specs.Lent.{lists_of};
ghost use Rattle.words.specs.Scanning.{tokens_from};
ghost use Rattle.own.specs.Ahead.{names_from};
ghost use Rattle.naming.specs.Known.{among};
ghost use Rattle.own.specs.Held.{Kinds, all_names, Holds};
ghost use Rattle.known.specs.Roles.{Known, action_for, own_for, listed_for, word_known, actions_differ, Entered, words_known};

use differing::all_differ;
use kinds::{ACTION, ALL, ANY, COMMA, DO, END, IN, LEFT, MOVE_TO, NAME, NOT_IN, STATE, STAY};
use lists::{Lists, number_in};
use own::{Holding, empty_table, hold, number_of};
use words::next_word;

// A name has a record in a list of records of that many bytes.
fn is_listed(list: &[u8], size: usize, name: &[u8]) -> bool
    requires { 32 ≤ size }
    ensures { result ≡ listed_in (records_in size list.now) name.now }
{
    number_in(list, size, name).is_some()
}

// The name is in the list that the word before it asks for.
fn listed_for(before: u8, name: &[u8], lists: Lists) -> bool
    ensures { result ≡ listed_for (lists_of lists.entry) before name.now }
{
    if (before == ACTION) | (before == DO) {
        return is_listed(lists.commands, 32, name);
    }
    if (before == ANY) | (before == ALL) {
        return is_listed(lists.classes, 36, name);
    }
    if ((before == IN) | (before == NOT_IN)) | ((before == LEFT) | (before == COMMA)) {
        return is_listed(lists.names, 32, name);
    }
    true
}

// The name is one of those that a table holds and that go on behind them.
fn is_among(
    text: &[u8],
    table: &[usize],
    count: usize,
    rest: usize,
    kind: u8,
    stop: u8,
    name: &[u8],
) -> bool
    requires { Kinds kind stop × Holds text.now table.now count rest }
    ensures { result ≡ among (all_names text.now table.now count kind stop rest) name.now }
{
    number_of(text, table, count, rest, kind, stop, name).is_some()
}

// The name is an own state, where the word before it asks for one: looked for before and behind it.
fn own_for(text: &[u8], before: u8, name: &[u8], own: &[usize], held: Holding) -> bool
    requires { Holds text.now own.now held.count held.rest }
    ensures { result ≡ own_for (all_names text.now own.now held.count 2 26 held.rest) before name.now }
{
    if (before == MOVE_TO) | (before == STAY) {
        return is_among(text, own, held.count, held.rest, STATE, END, name);
    }
    true
}

// The state that the words stand in: whether a do refers to one of its actions, and how many of those are held.
#[derive(Clone, Copy)]
struct Scope {
    referring: bool,
    count: usize,
    rest: usize,
}

// The name is one of the state's actions, where a do refers to one.
fn action_for(text: &[u8], before: u8, name: &[u8], actions: &[usize], scope: Scope) -> bool
    requires { Holds text.now actions.now scope.count scope.rest }
    ensures { result ≡ action_for scope.referring (all_names text.now actions.now scope.count 3 2 scope.rest) before name.now }
{
    if (before == DO) & scope.referring {
        return is_among(text, actions, scope.count, scope.rest, ACTION, STATE, name);
    }
    true
}

// The word is known, if it is a name: all that the word before it asks.
fn word_known(
    text: &[u8],
    before: u8,
    kind: u8,
    name: &[u8],
    scope: Scope,
    actions: &[usize],
    held: Holding,
    own: &[usize],
    lists: Lists,
) -> bool
    requires { Holds text.now actions.now scope.count scope.rest × Holds text.now own.now held.count held.rest }
    ensures { result ≡ word_known (lists_of lists.entry) (all_names text.now own.now held.count 2 26 held.rest) scope.referring (all_names text.now actions.now scope.count 3 2 scope.rest) before kind name.now }
{
    if kind != NAME {
        return true;
    }
    if !action_for(text, before, name, actions, scope) {
        return false;
    }
    if !own_for(text, before, name, own, held) {
        return false;
    }
    listed_for(before, name, lists)
}

// No command stands twice in a state, told at its state:.
fn actions_differ(text: &[u8], kind: u8, end: usize) -> bool
    ensures { result ≡ actions_differ kind (names_from text.now 3 2 end) }
{
    if kind == STATE {
        return all_differ(text, end, ACTION, STATE);
    }
    true
}

// Behind state: the table holds that state's actions, and a do refers to one of them; behind action: a do sends.
fn entered(text: &[u8], kind: u8, end: usize, scope: Scope, actions: &mut [usize]) -> Scope
    requires { Holds text.now actions.old scope.count scope.rest }
    ensures { Entered text.now kind end scope.referring (all_names text.now actions.old scope.count 3 2 scope.rest) result.referring actions.new result.count result.rest }
{
    if kind == STATE {
        let holding = hold(text, end, ACTION, STATE, actions);
        return Scope {
            referring: true,
            count: holding.count,
            rest: holding.rest,
        };
    }
    if kind == ACTION {
        return Scope {
            referring: false,
            ..scope
        };
    }
    scope
}

// Every word of the text is known, and no command stands twice in a state; the table holds the first of the own states.
fn words_known(text: &[u8], own: &[usize], held: Holding, lists: Lists) -> bool
    requires { Holds text.now own.now held.count held.rest }
    ensures { result ≡ words_known (lists_of lists.entry) (all_names text.now own.now held.count 2 26 held.rest) 27 false [] (tokens_from text.now 0) }
{
    let mut actions = empty_table();
    let mut scope = Scope {
        referring: false,
        count: 0,
        rest: text.len(),
    };
    // A number and no Option: the definition words_known takes the kind of the word before as a number, and 27 is no word's kind.
    let mut before = 27;
    let mut at = 0;
    // No count: a step is a word long.
    loop {
        let word = next_word(text, at);
        let kind = word.kind;
        let start = word.start;
        let end = word.end;
        if kind == END {
            return true;
        }
        let name = &text[start..end];
        if !word_known(text, before, kind, name, scope, &actions, held, own, lists) {
            return false;
        }
        if !actions_differ(text, kind, end) {
            return false;
        }
        scope = entered(text, kind, end, scope, &mut actions);
        before = kind;
        at = end;
    }
}

// A table with room for 32,768 own states.
fn own_table() -> [usize; 65536]
    ensures { length result ≡ 65536 }
{
    [0usize; 65536]
}

// No refusal 17 by the text, whose words are those of a text of the grammar: every name is known, no state stands twice, no command twice in
// a state, and every do referrer has its action.
pub fn text_known(text: &[u8], lists: Lists) -> bool
    ensures { Known text.now (lists_of lists.entry) result }
{
    if !all_differ(text, 0, STATE, END) {
        return false;
    }
    let mut own = own_table();
    let held = hold(text, 0, STATE, END, &mut own);
    words_known(text, &own, held, lists)
}
