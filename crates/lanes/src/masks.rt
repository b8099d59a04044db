// A mask has a bit for each cell that an atom looks at. "Some child of the configuration is one of them" is: mask and configuration share a
// bit. In a block they share one of the base, in all lanes, or one of the six low bits, in the same lanes of every block.
ghost use Rattle.std.specs.Prelude.{◌≡◌, ◌<◌, ◌≤◌};
ghost use Rattle.records.specs.Patterns.{pattern_as};
ghost use Rattle.configurations.specs.Configurations.{marked};
ghost use Rattle.configurations.specs.Cells.{cells_of, AllSmall};
ghost use Rattle.lanes.specs.Lanes.{Lanes};
ghost use Rattle.lanes.specs.Masks.{child, wanted, meets, block_word};

use crate::words::fixed_word;
use configurations::Cells;
use model::{ChildClass, ChildName};
use records::kinds::Pattern;
use records::sets::has_name;

// The cell is one that an atom looks at: of its pattern, and its name in the set or not in it, as `inside` says.
fn cell_wanted(pattern: Pattern, set: u32, inside: bool, class: ChildClass, name: ChildName) -> bool
    requires { name.0 < 32 }
    ensures { result ≡ wanted (pattern_as pattern) set inside (child class.0 name.0) }
{
    let named = has_name(set, name) == inside;
    match pattern {
        Pattern::Everyone => named,
        Pattern::OfClass(c) => class.0 == c.0 && named,
    }
}

// The cells that an atom looks at, a bit for each.
pub fn cells_mask(cells: Cells, pattern: Pattern, set: u32, inside: bool) -> u32
    requires { (cells.count ≤ 20) × AllSmall cells }
    ensures { result ≡ marked (wanted (pattern_as pattern) set inside) (cells_of cells) }
{
    let mut mask = 0;
    for i in (0..cells.count).rev() {
        let class = ChildClass(cells.classes[i]);
        let name = ChildName(cells.names[i]);
        mask *= 2;
        if cell_wanted(pattern, set, inside, class, name) {
            mask += 1;
        }
    }
    mask
}

// The lanes of the first block that share a bit with the mask: the fixed words of its six lowest bits.
pub fn low_word(mask: u32) -> u64
    ensures { Lanes result (meets mask) }
{
    let mut word = 0;
    for j in 0..6 {
        if (mask >> j) & 1 == 1 {
            word |= fixed_word(j);
        }
    }
    word
}

// The lanes of the block at `base` that share a bit with the mask, of which `low` is the word in the first block.
pub fn block_word(mask: u32, low: u64, base: u32) -> u64
    ensures { result ≡ block_word mask low base }
{
    if mask & base == 0 {
        return low;
    }
    u64::MAX
}
