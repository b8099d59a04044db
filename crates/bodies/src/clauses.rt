// The records of 4 bytes: child classes, states, when clauses, action clauses.
ghost use Rattle.std.specs.Prelude.{◌≡◌, ◌<◌, ◌≤◌, ◌*◌};
ghost use Rattle.bodies.specs.Clauses.{name_set, count_at, count_sum, guard_place, referrer_number, target, action_command, referrer_of};
ghost use Rattle.model.specs.Answers.{referrer_as};

use model::Referrer;
use records::kinds::own_state_at;
use records::words::{byte_at, narrow_at, u16_at, u32_at};

// Where a state's record has the counts of its when clauses and of its action clauses.
pub const WHEN_CLAUSES: usize = 0;

pub const ACTION_CLAUSES: usize = 2;

// The name set of child class i.
pub fn name_set(classes: &[u8], i: usize) -> u32
    requires { i < 1024 }
    ensures { result ≡ name_set classes.now i }
{
    u32_at(classes, i * 4)
}

// The count that record i holds at an offset.
pub fn count_at(b: &[u8], offset: usize, i: usize) -> usize
    requires { (i < 1024) × (offset < 4) }
    ensures { (result ≡ count_at b.now offset i) × (result < 65536) }
{
    u16_at(b, i * 4 + offset)
}

// The sum of the counts of the first n records: the first clause of state n, or the first statement of action clause n.
pub fn count_sum(b: &[u8], offset: usize, n: usize) -> usize
    requires { (n ≤ 1024) × (offset < 4) }
    ensures { (result ≡ count_sum b.now offset n) × (result ≤ n * 65536) }
{
    let mut sum = 0;
    for i in 0..n {
        sum += count_at(b, offset, i);
    }
    sum
}

// The place of when clause w's guard.
pub fn guard_place(whens: &[u8], w: usize) -> usize
    requires { w < 4294967296 }
    ensures { result ≡ guard_place whens.now w }
{
    u16_at(whens, w * 4)
}

// When clause w's referrer with its target, in the kind of number that it is.
#[tactic(auto, unfolding(crate::specs::Clauses::referrer_of))]
pub fn referrer_at(whens: &[u8], w: usize) -> Referrer
    requires { w < 4294967296 }
    ensures { referrer_as result ≡ referrer_of (referrer_number whens.now w) (target whens.now w) }
{
    let number = byte_at(whens, w * 4 + 2);
    let target = w * 4 + 3;
    match number {
        0 => Referrer::MoveTo(own_state_at(whens, target)),
        1 => Referrer::Do(narrow_at(whens, target)),
        _ => Referrer::Stay,
    }
}

// Action clause a's command.
pub fn action_command(actions: &[u8], a: usize) -> u8
    requires { a < 4294967296 }
    ensures { result ≡ action_command actions.now a }
{
    narrow_at(actions, a * 4)
}
