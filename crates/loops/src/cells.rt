// The cells of the present classes, one for each bit of a configuration; a configuration spread into one name set per class, and its list.
ghost use Rattle.std.specs.Prelude.{◌≡◌, ◌*◌, ◌<◌, ◌≤◌, ◌/◌, ◌%◌, length, get_or};
ghost use Rattle.model.specs.Replies.{written};
ghost use Rattle.children.specs.ChildList.{pairs};
ghost use Rattle.configurations.specs.Configurations.{chosen};
ghost use Rattle.configurations.specs.Cells.{cells_of, first_twenty, AllSmall};
ghost use Rattle.loops.specs.Cells.{cell_present, present_cells, Spreads};

use bodies::clauses::name_set;
use children::crews::with_name;
use configurations::Cells;
use model::{ChildClass, ChildName};
use records::sets::has_name;
use records::words::in_fours;

// The class of pair j, of all pairs of a class below 8 and a name below 32 in rising order.
fn class_numbered(j: u16) -> ChildClass
    requires { j < 256 }
    ensures { result.0 ≡ j / 32 }
{
    ChildClass((j / 32) as u8)
}

// The name of pair j.
fn name_numbered(j: u16) -> ChildName
    ensures { result.0 ≡ j % 32 }
{
    ChildName((j % 32) as u8)
}

// The name is in the class, and the class is present.
fn cell_present(classes: &[u8], present: u8, class: ChildClass, name: ChildName) -> bool
    requires { (class.0 < 8) × (name.0 < 32) }
    ensures { result ≡ cell_present classes.now present class.0 name.0 }
{
    let i = class.0 as usize;
    if in_fours(classes) <= i {
        return false;
    }
    ((present >> class.0) & 1 == 1) & has_name(name_set(classes, i), name)
}

// One cell for each name of each present class: the lowest class first, its names rising, then the next class.
pub fn read_cells(classes: &[u8], present: u8) -> Cells
    ensures { result ≡ first_twenty (present_cells classes.now present) }
{
    let mut cell_classes = [0u8; 20];
    let mut cell_names = [0u8; 20];
    let mut count = 0;
    for j in 0..256 {
        let class = class_numbered(j);
        let name = name_numbered(j);
        if cell_present(classes, present, class, name) {
            if count < 20 {
                cell_classes[count] = class.0;
                cell_names[count] = name.0;
            }
            count += 1;
        }
    }
    Cells {
        classes: cell_classes,
        names: cell_names,
        count,
    }
}

// Configuration k spread into one name set per class: a set bit means that some child has that name.
pub fn spread(cells: Cells, k: u32) -> [u32; 8]
    requires { (cells.count ≤ 20) × AllSmall cells }
    ensures { Spreads result (chosen (cells_of cells) k) }
{
    let mut sets = [0u32; 8];
    for i in (0..cells.count).rev() {
        if (k >> i) & 1 == 1 {
            let c = usize::from(cells.classes[i]);
            sets[c] = with_name(sets[c], ChildName(cells.names[i]));
        }
    }
    sets
}

// The list of a configuration, one child per set bit, in bit order, as pairs; what is behind them is kept. How many bytes it has.
pub fn write_list(cells: Cells, k: u32, out: &mut [u8]) -> usize
    requires { (cells.count ≤ 20) × (2 * cells.count ≤ length out.old) }
    ensures { (out.new ≡ written (pairs (chosen (cells_of cells) k)) out.old) × (result ≡ length (pairs (chosen (cells_of cells) k))) × (result ≤ 2 * cells.count) }
{
    let mut at = 0;
    for i in 0..cells.count {
        if (k >> i) & 1 == 1 {
            out[at] = cells.classes[i];
            out[at + 1] = cells.names[i];
            at += 2;
        }
    }
    at
}
