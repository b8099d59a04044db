// The rules 3 to 9 of a sheet, each a check of the bodies that it speaks of.
ghost use Rattle.std.specs.Prelude.{◌≡◌, ◌<◌, ◌≤◌, length};
ghost use Rattle.records.specs.Bytes.{in_fours, in_eights};
ghost use Rattle.bodies.specs.BodyRules.{classes_right, counts_right, records_right, guards_right, target_right, state_targets_right, targets_right, action_right, actions_plain, new_command, none_twice, commands_apart, actions_right, statements_right};

use crate::clauses::{
    ACTION_CLAUSES, WHEN_CLAUSES, action_command, count_at, count_sum, guard_place, name_set,
};
use crate::statements::{body_ok, statements_of};
use records::guards::{guard_ok, record_ok};
use records::words::{byte_at, record_at};

// 3: no child class has an empty set.
pub fn classes_ok(classes: &[u8]) -> bool
    requires { length classes.now ≤ 1024 }
    ensures { result ≡ classes_right classes.now }
{
    (0..classes.len() / 4).all(|i| name_set(classes, i) != 0)
}

// 4: the counts of the states sum to the clauses.
#[tactic(auto, unfolding(crate::specs::BodyRules::counts_right))]
pub fn counts_ok(states: &[u8], whens: &[u8], actions: &[u8]) -> bool
    requires { length states.now ≤ 1024 }
    ensures { result ≡ counts_right states.now (in_fours whens.now) (in_fours actions.now) }
{
    let n = states.len() / 4;
    let when_sum = count_sum(states, WHEN_CLAUSES, n);
    let action_sum = count_sum(states, ACTION_CLAUSES, n);
    (when_sum == whens.len() / 4) & (action_sum == actions.len() / 4)
}

// 5: every guard record keeps its layout.
pub fn records_ok(classes: &[u8], guards: &[u8]) -> bool
    ensures { result ≡ records_right (in_fours classes.now) guards.now }
{
    let class_count = classes.len() / 4;
    (0..guards.len() / 8).all(|i| record_ok(class_count, record_at(guards, i)))
}

// 6: every when clause's guard reads.
pub fn guards_ok(guards: &[u8], whens: &[u8]) -> bool
    requires { length whens.now ≤ 1024 }
    ensures { result ≡ guards_right guards.now whens.now }
{
    (0..whens.len() / 4).all(|w| guard_ok(guards, guard_place(whens, w)))
}

// MOVE_TO an own state, DO one of this state's action clauses, STAY with 0.
fn target_ok(states: usize, own_actions: usize, whens: &[u8], w: usize) -> bool
    requires { w < 4294967296 }
    ensures { result ≡ target_right states own_actions whens.now w }
{
    let number = byte_at(whens, w * 4 + 2);
    let target = byte_at(whens, w * 4 + 3);
    match number {
        0 => target < states,
        1 => target < own_actions,
        _ => (number == 2) & (target == 0),
    }
}

// The targets of state q's when clauses.
fn state_targets_ok(states: &[u8], whens: &[u8], q: usize) -> bool
    requires { q < 1024 }
    ensures { result ≡ state_targets_right states.now whens.now q }
{
    let own_states = states.len() / 4;
    let own_actions = count_at(states, ACTION_CLAUSES, q);
    let first = count_sum(states, WHEN_CLAUSES, q);
    (0..count_at(states, WHEN_CLAUSES, q)).all(|i| target_ok(
        own_states,
        own_actions,
        whens,
        first + i,
    ))
}

// 7: every referrer and target is right.
pub fn targets_ok(states: &[u8], whens: &[u8]) -> bool
    requires { length states.now ≤ 1024 }
    ensures { result ≡ targets_right states.now whens.now }
{
    (0..states.len() / 4).all(|q| state_targets_ok(states, whens, q))
}

// An action clause's command and its zero byte.
fn action_ok(actions: &[u8], a: usize) -> bool
    requires { a < 1024 }
    ensures { result ≡ action_right actions.now a }
{
    let command = action_command(actions, a);
    let zero = byte_at(actions, a * 4 + 1);
    (command <= 63) & (zero == 0)
}

// The commands and zero bytes of all action clauses.
fn each_action_ok(actions: &[u8]) -> bool
    requires { length actions.now ≤ 1024 }
    ensures { result ≡ actions_plain actions.now }
{
    (0..actions.len() / 4).all(|a| action_ok(actions, a))
}

// The command of action clause first + i is that of none from the first on.
fn command_is_new(actions: &[u8], first: usize, i: usize) -> bool
    requires { (first < 67108864) × (i < 65536) }
    ensures { result ≡ new_command actions.now first i }
{
    let command = action_command(actions, first + i);
    (0..i).all(|j| action_command(actions, first + j) != command)
}

// No command stands twice in state q.
fn none_twice(states: &[u8], actions: &[u8], q: usize) -> bool
    requires { q < 1024 }
    ensures { result ≡ none_twice states.now actions.now q }
{
    let first = count_sum(states, ACTION_CLAUSES, q);
    (0..count_at(states, ACTION_CLAUSES, q)).all(|i| command_is_new(actions, first, i))
}

// No command stands twice in any state.
fn none_twice_anywhere(states: &[u8], actions: &[u8]) -> bool
    requires { length states.now ≤ 1024 }
    ensures { result ≡ commands_apart states.now actions.now }
{
    (0..states.len() / 4).all(|q| none_twice(states, actions, q))
}

// 8: every action clause is right, and the statement counts sum to the statements.
#[tactic(auto, unfolding(crate::specs::BodyRules::actions_right))]
pub fn actions_ok(states: &[u8], actions: &[u8], statements: &[u8]) -> bool
    requires { (length states.now ≤ 1024) × (length actions.now ≤ 1024) }
    ensures { result ≡ actions_right states.now actions.now (in_eights statements.now) }
{
    let plain = each_action_ok(actions);
    let apart = none_twice_anywhere(states, actions);
    let sum = count_sum(actions, 2, actions.len() / 4);
    plain & (apart & (sum == statements.len() / 8))
}

// 9: the statements of every action clause read as a part.
pub fn statements_ok(
    classes: &[u8],
    states: &[u8],
    guards: &[u8],
    actions: &[u8],
    statements: &[u8],
) -> bool
    requires { length actions.now ≤ 1024 }
    ensures { result ≡ statements_right (in_fours classes.now) (in_fours states.now) guards.now actions.now statements.now }
{
    let class_count = classes.len() / 4;
    let state_count = states.len() / 4;
    (0..actions.len() / 4).all(|a| {
        body_ok(
            class_count,
            state_count,
            guards,
            statements_of(actions, statements, a),
        )
    })
}
