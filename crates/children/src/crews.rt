// A crew as one name set per child class: bit n of set i says that some child of class i has name n.
ghost use Rattle.std.specs.Prelude.{◌≡◌, ◌^◌, ◌<◌};
ghost use Rattle.std.specs.Int.Bits.{bit_or};
ghost use Rattle.records.specs.Patterns.{pattern_as};
ghost use Rattle.children.specs.ChildList.{children_of};
ghost use Rattle.children.specs.NameSets.{Shows, union_of, Names};

use model::ChildName;
use records::kinds::{Pattern, class_at, name_at};

// The set with one name more.
pub fn with_name(set: u32, name: ChildName) -> u32
    requires { name.0 < 32 }
    ensures { result ≡ bit_or set (2 ^ name.0) }
{
    set | (1 << name.0)
}

// The crew of a child list. A child whose class is 8 or over or whose name is 32 or over, which no accepted list has, is left out.
pub fn occupy(list: &[u8]) -> [u32; 8]
    ensures { Shows result (children_of list.now) }
{
    let mut sets = [0u32; 8];
    for i in (0..list.len() / 2).rev() {
        let class = class_at(list, 2 * i);
        let name = name_at(list, 2 * i + 1);
        let c = class.0 as usize;
        if (class.0 < 8) & (name.0 < 32) {
            sets[c] = with_name(sets[c], name);
        }
    }
    sets
}

// The names that some child of any class has.
fn union(sets: [u32; 8]) -> u32
    ensures { result ≡ union_of sets 8 }
{
    let mut all = 0;
    for set in sets {
        all |= set;
    }
    all
}

// The names that some child of the pattern has: of all classes, or of one.
pub fn occupied_names(sets: [u32; 8], pattern: Pattern) -> u32
    ensures { Names sets (pattern_as pattern) result }
{
    match pattern {
        Pattern::Everyone => union(sets),
        Pattern::OfClass(class) => {
            let i = class.0 as usize;
            if i < 8 { sets[i] } else { 0 }
        }
    }
}
