// The limits of a class, tested in code.
#![tactic(auto)]

ghost use Rattle.std.specs.Prelude.{◌≡◌};
ghost use Rattle.lists.specs.Lent.{lists_of};
ghost use Rattle.limits.specs.Shallow.{shallow};
ghost use Rattle.limits.specs.Counts.{counts_right, SetsTold, FewTold};

use lists::{Lists, class_set, record_count};
use records::guards::guard_end;
use sizes::Sizes;

// No guard of a body of guard records, which stand one behind the other, has more than 16 operators on a path.
pub fn all_shallow(guards: &[u8]) -> bool
    ensures { result ≡ shallow guards.now }
{
    let count = guards.len() / 8;
    let mut at = 0;
    // No count: a step is a guard long.
    while at < count {
        let Some(next) = guard_end(guards, at, 16) else {
            return false;
        };
        at = next;
    }
    true
}

// No body has too many records, and there is a state.
fn counts_right(classes: usize, n: Sizes) -> bool
    ensures { result ≡ counts_right classes n }
{
    (classes <= 8)
        & ((1 <= n.states)
            & ((n.states <= 32)
                & ((n.whens <= 256)
                    & ((n.guards <= 1024) & ((n.actions <= 256) & (n.statements <= 1024))))))
}

// No child class has an empty name set.
fn sets_right(classes: &[u8]) -> bool
    ensures { SetsTold classes.now result }
{
    let n = record_count(classes, 36);
    for i in 0..n {
        if class_set(classes, i) == 0 {
            return false;
        }
    }
    true
}

// No limit is passed but perhaps that of operators on a path.
pub fn few_enough(n: Sizes, lists: Lists) -> bool
    ensures { FewTold n (lists_of lists.entry) result }
{
    let listed = (lists.names.len() / 32 <= 32) & (lists.commands.len() / 32 <= 64);
    listed
        & (counts_right(lists.classes.len() / 36, n)
            & (sets_right(lists.classes) & (n.deepest <= 8)))
}
