// One word for each guard record, made once a block.
ghost use Rattle.std.specs.Prelude.{◌≡◌, ◌+◌, ◌<◌, ◌≤◌, get_or};
ghost use Rattle.truths.specs.Words.{word_of, Lent, Filled};

use crate::plans::{BOTH, EITHER, MET, UNMET, size_at};
use lanes::masks::block_word;
use lanes::words::word_at;

// The word of an operator's right operand, which begins where the left one at record i ends.
fn right_word(i: usize, sizes: &[u16], words: &[u64]) -> u64
    requires { i ≤ 1024 }
    ensures { result ≡ get_or words.now (i + get_or sizes.now i 0) 0 }
{
    word_at(words, i + size_at(sizes, i))
}

// The word of record i in the block at `base`: an atom's by its mask, an operator's from the words of its operands.
fn record_word(
    kind: u8,
    mask: u32,
    low: u64,
    base: u32,
    i: usize,
    sizes: &[u16],
    words: &[u64],
) -> u64
    requires { i < 1024 }
    ensures { result ≡ word_of kind mask low base i sizes.now words.now }
{
    match kind {
        MET => block_word(mask, low, base),
        UNMET => !block_word(mask, low, base),
        BOTH => word_at(words, i + 1) & right_word(i + 1, sizes, words),
        EITHER => word_at(words, i + 1) | right_word(i + 1, sizes, words),
        _ => !word_at(words, i + 1),
    }
}

// The words of a block, from the last record to the first.
pub fn fill_words(
    n: usize,
    kinds: &[u8],
    sizes: &[u16],
    masks: &[u32],
    lows: &[u64],
    base: u32,
    words: &mut [u64],
)
    requires { Lent n kinds.now masks.now lows.now words.old }
    ensures { Filled 0 n kinds.now sizes.now masks.now lows.now base words.old words.new }
{
    for i in (0..n).rev() {
        words[i] = record_word(kinds[i], masks[i], lows[i], base, i, sizes, words);
    }
}
