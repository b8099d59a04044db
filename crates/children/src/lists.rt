// Child lists: pairs of bytes (class, name), checked against the sheet's child classes.
ghost use Rattle.std.specs.Prelude.{◌≡◌, ◌≤◌, length};
ghost use Rattle.children.specs.Lists.{child_right, pairs_right};

use bodies::clauses::name_set;
use model::{ChildClass, ChildName};
use records::kinds::{class_at, name_at};
use records::sets::has_name;
use records::words::in_fours;

// The child's class is below K, and its name is below 32 and in its class.
#[tactic(auto, unfolding(crate::specs::Lists::child_right))]
fn child_ok(classes: &[u8], class: ChildClass, name: ChildName) -> bool
    requires { length classes.now ≤ 1024 }
    ensures { result ≡ child_right classes.now class.0 name.0 }
{
    let i = class.0 as usize;
    i < in_fours(classes) && name.0 < 32 && has_name(name_set(classes, i), name)
}

// No refusal 10: an even number of bytes, at most 4,096 children, each in its class.
pub fn list_ok(classes: &[u8], list: &[u8]) -> bool
    requires { length classes.now ≤ 1024 }
    ensures { result ≡ pairs_right classes.now list.now }
{
    let n = list.len();
    if n % 2 != 0 {
        return false;
    }
    if 8192 < n {
        return false;
    }
    for i in (0..n / 2).rev() {
        if !child_ok(classes, class_at(list, 2 * i), name_at(list, 2 * i + 1)) {
            return false;
        }
    }
    true
}
