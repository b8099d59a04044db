// The bodies of states and of action clauses: each state says how many clauses it has, each action clause its command and how many statements.
// They are counted ahead, in the words behind.
#![tactic(auto)]

ghost use Rattle.std.specs.Prelude.{◌≡◌, [], ◌∷◌, false};
ghost use Rattle.encoding.specs.Records.{fours};
ghost use Rattle.encoding.specs.Encoding.{state_bytes};
ghost use Rattle.words.specs.Scanning.{tokens_from};
ghost use Rattle.pen.specs.Writing.{Puts};
ghost use Rattle.clauses.specs.Ahead.{one_of, number_ahead, command_number, command_ahead};
ghost use Rattle.clauses.specs.Bodies.{state_as, action_as, WritesStates, WritesActions};

use kinds::{ACTION, DO, END, IF, MOVE_TO, NAME, STATE, WHEN};
use lists::number_in;
use pen::{put_one, put_two};
use sizes::tick;
use words::next_word;

// How many words of the kinds that are counted stand in the words from a place on, up to the first of a kind that stops;
// the end is not counted.
fn number_ahead(text: &[u8], at: usize, counted: &[u8], stops: &[u8]) -> usize
    requires { one_of counted.now 26 ≡ false }
    ensures { result ≡ number_ahead counted.now stops.now (tokens_from text.now at) }
{
    let mut n = 0;
    let mut from = at;
    // No count: a step is a word long.
    loop {
        let word = next_word(text, from);
        let kind = word.kind;
        if kind == END {
            return n;
        }
        if stops.contains(&kind) {
            return n;
        }
        n = tick(counted.contains(&kind), n);
        from = word.end;
    }
}

// The number of a command by its name; 0 where it has none.
fn command_number(commands: &[u8], name: &[u8]) -> u8
    ensures { result ≡ command_number commands.now name.now }
{
    let found = number_in(commands, 32, name);
    match found {
        Some(i) => (i % 256) as u8,
        None => 0,
    }
}

// The number of the command that the next word from a place on names; 0 where it is no name.
fn command_ahead(text: &[u8], at: usize, commands: &[u8]) -> u8
    ensures { result ≡ command_ahead commands.now (tokens_from text.now at) }
{
    let word = next_word(text, at);
    if word.kind != NAME {
        return 0;
    }
    command_number(commands, &text[word.start..word.end])
}

// A state's record: the numbers of its when and of its action clauses.
fn put_state(out: &mut [u8], at: usize, whens: usize, actions: usize) -> usize
    ensures { Puts (state_bytes (state_as whens actions ∷ [])) out.old at out.new result }
{
    let a = put_two(out, at, whens);
    put_two(out, a, actions)
}

// An action clause's record: its command, a zero byte, the number of its statements.
fn put_action(out: &mut [u8], at: usize, command: u8, statements: usize) -> usize
    ensures { Puts (fours (action_as command statements ∷ [])) out.old at out.new result }
{
    let a = put_one(out, at, command);
    let b = put_one(out, a, 0);
    put_two(out, b, statements)
}

// The records of the states of a text, from a place of the buffer on; the place behind them.
pub fn write_states(text: &[u8], out: &mut [u8], at: usize) -> usize
    ensures { WritesStates text.now out.old at out.new result }
{
    let mut end = at;
    let mut from = 0;
    // No count: a step is a word long.
    loop {
        let word = next_word(text, from);
        let kind = word.kind;
        if kind == END {
            return end;
        }
        from = word.end;
        if kind == STATE {
            let whens = number_ahead(text, from, &[WHEN], &[STATE]);
            let actions = number_ahead(text, from, &[ACTION], &[STATE]);
            end = put_state(out, end, whens, actions);
        }
    }
}

// The records of the action clauses of a text, from a place of the buffer on; the place behind them.
pub fn write_actions(text: &[u8], commands: &[u8], out: &mut [u8], at: usize) -> usize
    ensures { WritesActions text.now commands.now out.old at out.new result }
{
    let mut end = at;
    let mut from = 0;
    // No count: a step is a word long.
    loop {
        let word = next_word(text, from);
        let kind = word.kind;
        if kind == END {
            return end;
        }
        from = word.end;
        if kind == ACTION {
            let command = command_ahead(text, from, commands);
            let statements = number_ahead(text, from, &[MOVE_TO, DO, IF], &[STATE, ACTION]);
            end = put_action(out, end, command, statements);
        }
    }
}
