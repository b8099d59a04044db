// The lanes that count: in which every present class has a child.
ghost use Rattle.std.specs.Prelude.{◌≡◌, ◌≤◌, ◌%◌};
ghost use Rattle.configurations.specs.Cells.{cells_of, AllSmall};
ghost use Rattle.lanes.specs.Lanes.{Lanes, in_block};
ghost use Rattle.lanes.specs.Counting.{Counts, LowWords, present_met};

use crate::masks::{block_word, cells_mask, low_word};
use configurations::Cells;
use model::ChildClass;
use records::kinds::Pattern;

// The present classes, and of each class the mask of its cells and its lanes in the first block: two lists, as `Counts` of specs/ has them.
#[derive(Clone, Copy)]
pub struct Present {
    pub classes: u8,
    pub masks: [u32; 8],
    pub lows: [u64; 8],
}

// Made once a question.
pub fn present_masks(cells: Cells, present: u8) -> Present
    requires { (cells.count ≤ 20) × AllSmall cells }
    ensures { Counts (cells_of cells) present result }
{
    let mut masks = [0u32; 8];
    let mut lows = [0u64; 8];
    for i in 0..8u8 {
        let at = i as usize;
        let mask = cells_mask(cells, Pattern::OfClass(ChildClass(i)), 0, false);
        masks[at] = mask;
        lows[at] = low_word(mask);
    }
    Present {
        classes: present,
        masks,
        lows,
    }
}

// The lanes of the block at `base` that count.
pub fn counted_lanes(p: Present, base: u32) -> u64
    requires { (base % 64 ≡ 0) × LowWords p.masks p.lows }
    ensures { Lanes result (in_block base (present_met p.classes p.masks 8)) }
{
    let mut word = u64::MAX;
    for i in 0..8 {
        if (p.classes >> i) & 1 == 1 {
            word &= block_word(p.masks[i], p.lows[i], base);
        }
    }
    word
}
