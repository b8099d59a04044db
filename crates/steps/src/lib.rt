// The machine that reads a text word by word, by numbers: what is wanted next, and what is open.
#![tactic(auto)]

ghost use Rattle.std.specs.Prelude.{◌<◌, ◌≡◌, eqb, None};
ghost use Rattle.steps.specs.Turns.{action_turns, when_turns, operand_turns, closing_turns, operator_turns, ending_turns, statement_turns, turns};
ghost use Rattle.steps.specs.Going.{first_of, going};
ghost use Rattle.steps.specs.Opening.{counted, open_after};

use kinds::{
    ACTION, ALL, AND, ANY, CHILDREN, CLASS, CLOSE, COMMA, DO, ELSE, END, ENDIF, IF, IN, LEFT,
    MOVE_TO, NAME, NOT, NOT_IN, OPEN, OR, RIGHT, STATE, STAY, THEN, TOP, WHEN,
};

// What was read last, and so what is wanted next.
#[derive(Clone, Copy)]
pub enum Want {
    Start,
    ClassRead,
    TopRead,
    ClassNamed,
    StateRead,
    InWhens,
    OperandWanted,
    KinWanted,
    SideWanted,
    SetWanted,
    LeftRead,
    CommaRead,
    NamesRead,
    OperandRead,
    MoveRead,
    DoRead,
    StayRead,
    ActionRead,
    Statements,
    SendRead,
    CommandRead,
    SendAllRead,
    GoRead,
    Finished,
}

// What is open: how many brackets, whether the guard is an if's, how many ifs.
#[derive(Clone, Copy)]
pub struct Open {
    pub brackets: usize,
    pub nested: bool,
    pub ifs: usize,
}

// There, if the word is of that kind.
fn on(kind: u8, k: u8, want: Want, rest: Option<Want>) -> Option<Want>
    ensures { result ≡ first_of (eqb kind k) want rest }
{
    if kind == k { Some(want) } else { rest }
}

// One of two kinds of words.
fn either(kind: u8, j: u8, one: Want, k: u8, other: Want) -> Option<Want>
    ensures { result ≡ first_of (eqb kind j) one (first_of (eqb kind k) other None) }
{
    on(kind, j, one, on(kind, k, other, None))
}

// Behind a state's name, its whens or its actions: another action, another state, the end.
fn actions(kind: u8) -> Option<Want>
    ensures { result ≡ going action_turns kind }
{
    let end = on(kind, END, Want::Finished, None);
    let state = on(kind, STATE, Want::StateRead, end);
    on(kind, ACTION, Want::ActionRead, state)
}

// Behind a state's name or its whens.
fn whens(kind: u8) -> Option<Want>
    ensures { result ≡ going when_turns kind }
{
    on(kind, WHEN, Want::OperandWanted, actions(kind))
}

// Where a guard can end: at its bracket, at then, at a referrer.
fn closing(brackets: usize, nested: bool, kind: u8) -> Option<Want>
    ensures { result ≡ going (closing_turns brackets nested) kind }
{
    if brackets != 0 {
        return on(kind, CLOSE, Want::OperandRead, None);
    }
    if nested {
        return on(kind, THEN, Want::Statements, None);
    }
    let stay = on(kind, STAY, Want::StayRead, None);
    let command = on(kind, DO, Want::DoRead, stay);
    on(kind, MOVE_TO, Want::MoveRead, command)
}

// Where a statement list can end: an action's, a part of an if that had its else or had not.
fn ending(ifs: usize, had: bool, kind: u8) -> Option<Want>
    ensures { result ≡ going (ending_turns ifs had) kind }
{
    if ifs == 0 {
        return actions(kind);
    }
    if had {
        return on(kind, ENDIF, Want::Statements, None);
    }
    either(kind, ELSE, Want::Statements, ENDIF, Want::Statements)
}

// The first word of an operand.
fn operand(kind: u8) -> Option<Want>
    ensures { result ≡ going operand_turns kind }
{
    let atom = either(kind, ANY, Want::KinWanted, ALL, Want::KinWanted);
    let bracket = on(kind, OPEN, Want::OperandWanted, atom);
    on(kind, NOT, Want::OperandWanted, bracket)
}

// Behind an operand: another one, or the guard ends.
fn operators(brackets: usize, nested: bool, kind: u8) -> Option<Want>
    ensures { result ≡ going (operator_turns brackets nested) kind }
{
    let close = closing(brackets, nested, kind);
    let or = on(kind, OR, Want::OperandWanted, close);
    on(kind, AND, Want::OperandWanted, or)
}

// The first word of a statement, or the list ends.
fn statement(ifs: usize, had: bool, kind: u8) -> Option<Want>
    ensures { result ≡ going (statement_turns ifs had) kind }
{
    let end = ending(ifs, had, kind);
    let branch = on(kind, IF, Want::OperandWanted, end);
    let go_to = on(kind, MOVE_TO, Want::GoRead, branch);
    on(kind, DO, Want::SendRead, go_to)
}

// What is wanted behind a word of that kind; nothing, if it cannot stand.
pub fn step(want: Want, opened: Open, had: bool, kind: u8) -> Option<Want>
    ensures { result ≡ going (turns want opened.brackets opened.nested opened.ifs had) kind }
{
    match want {
        Want::Start => on(kind, CLASS, Want::ClassRead, None),
        Want::ClassRead => on(kind, TOP, Want::TopRead, None),
        Want::TopRead => on(kind, NAME, Want::ClassNamed, None),
        Want::ClassNamed => on(kind, STATE, Want::StateRead, None),
        Want::StateRead => on(kind, NAME, Want::InWhens, None),
        Want::InWhens => whens(kind),
        Want::OperandWanted => operand(kind),
        Want::KinWanted => either(kind, CHILDREN, Want::SideWanted, NAME, Want::SideWanted),
        Want::SideWanted => either(kind, IN, Want::SetWanted, NOT_IN, Want::SetWanted),
        Want::SetWanted => either(kind, NAME, Want::OperandRead, LEFT, Want::LeftRead),
        Want::LeftRead => on(kind, NAME, Want::NamesRead, None),
        Want::CommaRead => on(kind, NAME, Want::NamesRead, None),
        Want::NamesRead => either(kind, COMMA, Want::CommaRead, RIGHT, Want::OperandRead),
        Want::OperandRead => operators(opened.brackets, opened.nested, kind),
        Want::MoveRead => on(kind, NAME, Want::InWhens, None),
        Want::DoRead => on(kind, NAME, Want::InWhens, None),
        Want::StayRead => on(kind, NAME, Want::InWhens, whens(kind)),
        Want::ActionRead => on(kind, NAME, Want::Statements, None),
        Want::Statements => statement(opened.ifs, had, kind),
        Want::SendRead => on(kind, NAME, Want::CommandRead, None),
        Want::CommandRead => on(kind, ALL, Want::SendAllRead, None),
        Want::SendAllRead => either(kind, CHILDREN, Want::Statements, NAME, Want::Statements),
        Want::GoRead => on(kind, NAME, Want::Statements, None),
        Want::Finished => None,
    }
}

// One more behind a word of kind up, one less behind one of kind down.
pub fn count(n: usize, kind: u8, up: u8, down: u8) -> usize
    requires { n < 18446744073709551615 }
    ensures { result ≡ counted n kind up down }
{
    if kind == up {
        n + 1
    } else if kind == down {
        n.saturating_sub(1)
    } else {
        n
    }
}

// What is open behind a word of that kind.
pub fn behind(opened: Open, kind: u8) -> Open
    requires { (opened.brackets < 18446744073709551615) × (opened.ifs < 18446744073709551615) }
    ensures { result ≡ open_after opened kind }
{
    Open {
        brackets: count(opened.brackets, kind, OPEN, CLOSE),
        nested: (kind == IF) | ((kind != THEN) & opened.nested),
        ifs: count(opened.ifs, kind, THEN, ENDIF),
    }
}
