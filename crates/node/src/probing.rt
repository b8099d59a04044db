// The probe: the first clause of a state whose guard is true.
ghost use Rattle.std.specs.Prelude.{◌≡◌, ◌<◌, ◌≤◌};
ghost use Rattle.node.specs.Probing.{clause_true, first_hit, Probes};

use crate::values::guard_true;
use accepted::held::{GUARDS, Sheet, WHENS};
use bodies::clauses::{WHEN_CLAUSES, guard_place, referrer_at};
use model::{OwnState, Probed};

// When clause w's guard is true.
fn clause_holds(sheet: Sheet, w: usize, sets: [u32; 8]) -> bool
    requires { w < 4294967296 }
    ensures { result ≡ clause_true sheet.entry.bytes.now sets w }
{
    let place = guard_place(sheet.body(WHENS), w);
    guard_true(sheet.body(GUARDS), place, sets)
}

// The number of the first clause, of n from the first on, whose guard is true.
fn first_true(sheet: Sheet, first: usize, n: usize, sets: [u32; 8]) -> Option<usize>
    requires { (first ≤ 67108864) × (n < 65536) }
    ensures { result ≡ first_hit sheet.entry.bytes.now sets first n }
{
    let mut i = 0;
    loop {
        if i == n {
            break None;
        }
        if clause_holds(sheet, first + i, sets) {
            break Some(i);
        }
        i += 1;
    }
}

// The probe of state q.
pub fn probe(sheet: Sheet, q: OwnState, sets: [u32; 8]) -> Probed
    ensures { Probes sheet.entry.bytes.now sets q.0 result }
{
    let clauses = sheet.clauses_of(q, WHEN_CLAUSES);
    let first = clauses.first;
    let hit = first_true(sheet, first, clauses.count, sets)?;
    Some((hit, referrer_at(sheet.body(WHENS), first + hit)))
}
