// Words of 64 lanes.
ghost use Rattle.std.specs.Prelude.{◌≡◌, ◌<◌, get_or};
ghost use Rattle.model.specs.Words.{has};
ghost use Rattle.lanes.specs.Lanes.{Lanes, lowest_lane};

// The lanes whose number has bit j: the same in every block.
pub fn fixed_word(j: usize) -> u64
    requires { j < 6 }
    ensures { Lanes result (λ i. has i j) }
{
    let words: [u64; 6] = [
        0xAAAAAAAAAAAAAAAA,
        0xCCCCCCCCCCCCCCCC,
        0xF0F0F0F0F0F0F0F0,
        0xFF00FF00FF00FF00,
        0xFFFF0000FFFF0000,
        0xFFFFFFFF00000000,
    ];
    words[j]
}

// The lowest lane of a word; 64 where it has none, as `trailing_zeros` counts.
pub fn lowest_lane(w: u64) -> u32
    ensures { result ≡ lowest_lane w }
{
    w.trailing_zeros()
}

// The word at a place of a table; 0 past its end.
pub fn word_at(words: &[u64], j: usize) -> u64
    ensures { result ≡ get_or words.now j 0 }
{
    words.get(j).copied().unwrap_or(0)
}
