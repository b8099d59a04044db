// What is read of an accepted sheet beside its bodies: how many own states and child classes there are, and where a state's clauses
// stand. The floors above speak of these, never of byte offsets.
ghost use Rattle.std.specs.Prelude.{◌≡◌, ◌<◌, ◌≤◌};
ghost use Rattle.sheet.specs.Contents.{body};
ghost use Rattle.records.specs.Bytes.{in_fours};
ghost use Rattle.accepted.specs.Runs.{RunIs};

use crate::held::{CLASSES, STATES, Sheet};
use bodies::clauses::{count_at, count_sum};
use model::OwnState;
use records::words::in_fours;

// Clauses that stand together: the first of them, and how many there are.
#[derive(Clone, Copy)]
pub struct Run {
    pub first: usize,
    pub count: usize,
}

impl<'a> Sheet<'a> {
    // The number of own states, S.
    pub fn state_count(self) -> usize
        ensures { (result ≡ in_fours (body self.entry.bytes.now 1)) × (result ≤ 32) }
    {
        in_fours(self.body(STATES))
    }

    // The number of child classes, K.
    pub fn class_count(self) -> usize
        ensures { (result ≡ in_fours (body self.entry.bytes.now 0)) × (result ≤ 8) }
    {
        in_fours(self.body(CLASSES))
    }

    // State q's when clauses, or its action clauses, by the offset of their count.
    pub fn clauses_of(self, q: OwnState, offset: usize) -> Run
        requires { offset < 4 }
        ensures { RunIs result (body self.entry.bytes.now 1) offset q.0 }
    {
        let states = self.body(STATES);
        let i = q.0 as usize;
        let first = count_sum(states, offset, i);
        let count = count_at(states, offset, i);
        Run { first, count }
    }
}
