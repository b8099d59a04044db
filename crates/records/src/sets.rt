// Sets of numbers in a word: bit n stands for n. In a name set, which has 32 bits, n is a child's state name.
ghost use Rattle.std.specs.Prelude.{◌≡◌, ◌<◌};
ghost use Rattle.model.specs.Words.{has};

use model::ChildName;

// The number is in the set: its one bit, by shift and mask.
pub fn has(set: u64, n: usize) -> bool
    requires { n < 64 }
    ensures { result ≡ has set n }
{
    (set >> n) & 1 == 1
}

// The name is in the set: its one bit, by shift and mask.
pub fn has_name(set: u32, name: ChildName) -> bool
    requires { name.0 < 32 }
    ensures { result ≡ has set name.0 }
{
    has(set as u64, name.0 as usize)
}
