// The clauses of an accepted sheet as tables, made once a question.
ghost use Rattle.std.specs.Prelude.{◌≡◌, ◌<◌, ◌≤◌};
ghost use Rattle.model.specs.Answers.{referrer_as};
ghost use Rattle.records.specs.Bytes.{in_fours};
ghost use Rattle.arrows.specs.Sorting.{aim};
ghost use Rattle.blocks.specs.ClauseTables.{FirstsOf, FromsOf, StateLent, ReadState, ClausesOf};

use accepted::held::{ACTIONS, STATES, Sheet, WHENS};
use arrows::sorting::Clauses;
use bodies::clauses::{
    ACTION_CLAUSES, WHEN_CLAUSES, count_at, count_sum, guard_place, referrer_at,
};
use model::Referrer;
use records::words::in_fours;

// Which word of the table a clause of state q aims at, whose action clauses stand from `first` on: of a move, of the run of an action clause,
// or none.
fn aim_of(x: Referrer, q: usize, first: usize) -> usize
    requires { (q < 32) × (first ≤ 256) }
    ensures { result ≡ aim q first (referrer_as x) }
{
    match x {
        Referrer::MoveTo(t) => q * 32 + t.0 as usize,
        Referrer::Do(a) => 1024 + (first + a as usize),
        Referrer::Stay => 1280,
    }
}

// The first clause of each state, of the kind whose counts stand at the offset, and behind the last state the number of all.
fn first_clauses(states: &[u8], offset: usize) -> [usize; 33]
    requires { (in_fours states.now ≤ 32) × (offset < 4) }
    ensures { FirstsOf states.now offset result }
{
    let s = in_fours(states);
    let mut firsts = [0usize; 33];
    for q in 0..=s {
        firsts[q] = count_sum(states, offset, q);
    }
    firsts
}

// Where the statements of each action clause start, in bytes, and behind the last clause where they end.
fn statement_starts(actions: &[u8]) -> [usize; 257]
    requires { in_fours actions.now ≤ 256 }
    ensures { FromsOf actions.now result }
{
    let n = in_fours(actions);
    let mut froms = [0usize; 257];
    let mut from = 0;
    for a in 0..n {
        from += count_at(actions, 2, a) * 8;
        froms[a + 1] = from;
    }
    froms
}

// The when clauses of state q, from `first` to `last`: where the guard of each stands, and where it aims.
fn read_state(
    whens: &[u8],
    first: usize,
    last: usize,
    q: usize,
    action: usize,
    places: &mut [usize],
    aims: &mut [usize],
)
    requires { StateLent first last q action places.old aims.old }
    ensures { ReadState whens.now first last q action places.old aims.old places.new aims.new }
{
    for w in first..last {
        places[w] = guard_place(whens, w);
        aims[w] = aim_of(referrer_at(whens, w), q, action);
    }
}

// The clauses, state by state.
pub fn read_clauses(sheet: Sheet) -> Clauses
    ensures { ClausesOf sheet.entry.bytes.now result }
{
    let whens = sheet.body(WHENS);
    let firsts = first_clauses(sheet.body(STATES), WHEN_CLAUSES);
    let actions = first_clauses(sheet.body(STATES), ACTION_CLAUSES);
    let froms = statement_starts(sheet.body(ACTIONS));
    let states = sheet.state_count();
    let mut places = [0usize; 256];
    let mut aims = [0usize; 256];
    for q in 0..states {
        read_state(
            whens,
            firsts[q],
            firsts[q + 1],
            q,
            actions[q],
            &mut places,
            &mut aims,
        );
    }
    Clauses {
        places,
        aims,
        firsts,
        actions,
        froms,
        states,
    }
}
