// Which name of a class text is to blame where the text is refused for its names: the first that is not known, or stands twice, or runs
// an action clause that its state lacks. The word before a name tells what it names.
ghost use Rattle.std.specs.Prelude.{◌<◌, ◌≤◌, length};
ghost use Rattle.own.specs.Held.{Holds};

use kinds::{ACTION, ALL, ANY, COMMA, DO, END, IN, LEFT, MOVE_TO, NAME, NOT_IN, STATE, STAY};
use lists::{Lists, number_in};
use own::{Holding, empty_table, hold, next_named, number_of};
use words::next_word;

// What is wrong with a name: in the order of the messages.
#[derive(Clone, Copy)]
pub enum Cause {
    ChildState,
    ChildClass,
    Command,
    OwnState,
    StateTwice,
    ActionTwice,
    NoAction,
}

// A name that is to blame: what for, and its place.
#[derive(Clone, Copy)]
pub struct Blame {
    pub cause: Cause,
    pub start: usize,
    pub end: usize,
}

// The state that the words stand in: how many states are named, the commands of its action clauses, and those of the clauses so far.
#[derive(Clone, Copy)]
struct Scope {
    states: usize,
    all: u64,
    begun: u64,
}

// The cause, where the test does not hold.
fn unless(fine: bool, cause: Cause) -> Result<(), Cause> {
    if fine { Ok(()) } else { Err(cause) }
}

// A list has the name.
fn is_listed(list: &[u8], size: usize, name: &[u8]) -> bool
    requires { 32 ≤ size }
{
    number_in(list, size, name).is_some()
}

// The bit of a command, by its number in the list; 0 where the list lacks it.
fn bit_of(commands: &[u8], name: &[u8]) -> u64 {
    match number_in(commands, 32, name) {
        Some(n) if n < 64 => 1 << n,
        _ => 0,
    }
}

// The commands of the action clauses of the state whose words begin at a place.
fn clauses_of(text: &[u8], at: usize, commands: &[u8]) -> u64 {
    let mut all = 0;
    let mut from = at;
    while let Some((start, end)) = next_named(text, from, ACTION, STATE) {
        all |= bit_of(commands, &text[start..end]);
        from = end;
    }
    all
}

// A name where an own state stands, by its number among them: behind state: it is that state's, so no earlier one has it.
fn own_held(before: u8, number: Option<usize>, scope: Scope) -> Result<(), Cause> {
    if before == STATE {
        return unless(number == Some(scope.states), Cause::StateTwice);
    }
    unless(number.is_some(), Cause::OwnState)
}

// A name where a command stands: it is listed; behind action: no earlier clause of the state has it; behind do, in a when clause, so
// before any action clause, the state has an action clause for it.
fn command_held(before: u8, bit: u64, scope: Scope) -> Result<(), Cause> {
    unless(bit != 0, Cause::Command)?;
    if before == ACTION {
        return unless(scope.begun & bit == 0, Cause::ActionTwice);
    }
    unless(scope.begun != 0 || scope.all & bit != 0, Cause::NoAction)
}

// A name where a child class or a child's state stands.
fn child_held(before: u8, lists: Lists, name: &[u8]) -> Result<(), Cause> {
    match before {
        ANY | ALL => unless(is_listed(lists.classes, 36, name), Cause::ChildClass),
        IN | NOT_IN | LEFT | COMMA => unless(is_listed(lists.names, 32, name), Cause::ChildState),
        _ => Ok(()),
    }
}

// A word of that kind, behind a word of another: what that one asks of a name.
fn word_held(
    text: &[u8],
    before: u8,
    kind: u8,
    start: usize,
    end: usize,
    scope: Scope,
    own: &[usize],
    held: Holding,
    lists: Lists,
) -> Result<(), Cause>
    requires start_le_end { (start ≤ end) × (end ≤ length text.now) }
    requires holds { Holds text.now own.now held.count held.rest }
{
    if kind != NAME {
        return Ok(());
    }
    let name = &text[start..end];
    match before {
        STATE | MOVE_TO | STAY => {
            let number = number_of(text, own, held.count, held.rest, STATE, END, name);
            own_held(before, number, scope)
        }
        ACTION | DO => command_held(before, bit_of(lists.commands, name), scope),
        _ => child_held(before, lists, name),
    }
}

// The state that the words behind this one stand in.
fn entered(
    text: &[u8],
    before: u8,
    kind: u8,
    start: usize,
    end: usize,
    commands: &[u8],
    scope: Scope,
) -> Scope
    requires start_le_end { (start ≤ end) × (end ≤ length text.now) }
    requires fewer { scope.states < end }
    ensures { result.states ≤ end }
{
    if kind == STATE {
        return Scope {
            all: clauses_of(text, end, commands),
            begun: 0,
            ..scope
        };
    }
    match before {
        STATE => Scope {
            states: scope.states + 1,
            ..scope
        },
        ACTION => Scope {
            begun: scope.begun | bit_of(commands, &text[start..end]),
            ..scope
        },
        _ => scope,
    }
}

// The first name that is to blame, by a table of the own states.
fn first_wrong(text: &[u8], own: &[usize], held: Holding, lists: Lists) -> Option<Blame>
    requires { Holds text.now own.now held.count held.rest }
{
    let mut before = END;
    let mut scope = Scope {
        states: 0,
        all: 0,
        begun: 0,
    };
    let mut at = 0;
    // No count: a step is a word long.
    loop {
        let word = next_word(text, at);
        let kind = word.kind;
        let start = word.start;
        let end = word.end;
        if kind == END {
            return None;
        }
        let one = word_held(text, before, kind, start, end, scope, own, held, lists);
        if let Err(cause) = one {
            return Some(Blame { cause, start, end });
        }
        scope = entered(text, before, kind, start, end, lists.commands, scope);
        before = kind;
        at = end;
    }
}

// The first name of a class text that is to blame; of a text whose states the table cannot hold, none is told.
pub fn name_to_blame(text: &[u8], lists: Lists) -> Option<Blame> {
    let mut own = empty_table();
    let held = hold(text, 0, STATE, END, &mut own);
    if 8191 < held.count {
        return None;
    }
    first_wrong(text, &own, held, lists)
}
