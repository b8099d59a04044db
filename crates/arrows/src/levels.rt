// How many moves can be made: round by round the lanes in which n moves can be made from each state.
ghost use Rattle.std.specs.Prelude.{◌≡◌, ◌<◌, length};
ghost use Rattle.arrows.specs.Levels.{LevelsLent, Onward, Rounds, LevelsAre};

// The lanes in which a move from state q leads to a state that has them in its level.
fn onward(s: usize, table: &[u64], level: &[u64], q: usize) -> u64
    requires { LevelsLent s table.now × (q < s) × (length level.now ≡ 32) }
    ensures { Onward s table.now level.now q result }
{
    let mut word = 0;
    for t in 0..s {
        word |= table[q * 32 + t] & level[t];
    }
    word
}

// One round: the next level of every state, and the lanes that are in any. A state from which n moves cannot be made in any lane makes no
// more.
fn round(s: usize, table: &[u64], level: &[u64], next: &mut [u64]) -> u64
    requires { LevelsLent s table.now × (length level.now ≡ 32) × (length next.old ≡ 32) }
    ensures { Rounds s table.now level.now s next.new result }
{
    let mut all = 0;
    for q in 0..s {
        let word = if level[q] == 0 {
            0
        } else {
            onward(s, table, level, q)
        };
        next[q] = word;
        all |= word;
    }
    all
}

// Round by round, until no lane is left or s rounds are made: no lane makes more than so many moves and one makes so many, or the lanes that
// move for ever.
pub fn count_moves(s: usize, table: &[u64], counted: u64) -> Result<usize, u64>
    requires { LevelsLent s table.now × (0 < s) }
    ensures { LevelsAre s table.now counted result }
{
    let mut level = [counted; 32];
    let mut all = counted;
    for n in 0..s {
        let mut next = [0u64; 32];
        all = round(s, table, &level, &mut next);
        if all == 0 {
            return Ok(n);
        }
        level = next;
    }
    Err(all)
}
