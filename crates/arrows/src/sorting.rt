// Where the lanes of each state move: first true by words, and the action clauses that its DOs run, each once, on the lanes that reach it.
ghost use Rattle.std.specs.Prelude.{◌≡◌, ◌<◌, length};
ghost use Rattle.arrows.specs.Sorting.{Took, HitsLent, RanAll, RunsLent, Ranges, Empty, Sorted};

use lanes::words::word_at;
use sweeps::sweep_list;

// The clauses of a class: where the guard of each when clause stands and which word of the table it aims at (1,280 where it aims at none, as
// `aim` of specs/ numbers it), the first when clause and the first action clause of each state, behind the last state their number, and where
// the statements of each action clause start. A list of each, as `Ranges` and `Sorted` of specs/ have them.
#[derive(Clone, Copy)]
pub struct Clauses {
    pub places: [usize; 256],
    pub aims: [usize; 256],
    pub firsts: [usize; 33],
    pub actions: [usize; 33],
    pub froms: [usize; 257],
    pub states: usize,
}

// The when clauses from `first` to `last` in order, each taking those of the remaining lanes in which its guard is true to the word that it
// aims at.
fn take_hits(
    places: &[usize],
    aims: &[usize],
    first: usize,
    last: usize,
    words: &[u64],
    counted: u64,
    table: &mut [u64],
)
    requires { HitsLent places.now aims.now first last table.old }
    ensures { Took places.now aims.now words.now first last counted table.old table.new }
{
    let mut remaining = counted;
    for m in first..last {
        let word = word_at(words, places[m]);
        let at = aims[m];
        let hit = remaining & word;
        remaining &= !word;
        if at < 1280 {
            table[at] |= hit;
        }
    }
}

// The action clauses from `first` to `last` of state q, each run on the lanes in which a DO runs it.
fn run_actions(
    words: &[u64],
    statements: &[u8],
    froms: &[usize],
    first: usize,
    last: usize,
    q: usize,
    table: &mut [u64],
)
    requires { RunsLent statements.now froms.now first last q table.old }
    ensures { RanAll words.now statements.now froms.now first last q table.old table.new }
{
    for a in first..last {
        let from = froms[a];
        let to = froms[a + 1];
        let hits = table[1024 + a];
        sweep_list(words, &statements[from..to], q, hits, table);
    }
}

// Where the lanes of every state move: word q * 32 + t has the lanes in which the next move from q leads to t, word 1024 + a those in which a DO
// runs action clause a.
pub fn sort_lanes(
    clauses: &Clauses,
    statements: &[u8],
    words: &[u64],
    counted: u64,
    table: &mut [u64],
)
    requires { Ranges clauses.now.places clauses.now.aims clauses.now.firsts clauses.now.actions clauses.now.froms statements.now clauses.now.states × Empty table.old × (length table.old ≡ 1280) }
    ensures { Sorted clauses.now.places clauses.now.aims clauses.now.firsts clauses.now.actions clauses.now.froms statements.now clauses.now.states clauses.now.states words.now counted table.new }
{
    for q in 0..clauses.states {
        take_hits(
            &clauses.places,
            &clauses.aims,
            clauses.firsts[q],
            clauses.firsts[q + 1],
            words,
            counted,
            table,
        );
        run_actions(
            words,
            statements,
            &clauses.froms,
            clauses.actions[q],
            clauses.actions[q + 1],
            q,
            table,
        );
    }
}
