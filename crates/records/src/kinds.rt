// The byte readers that tell the kinds of numbers apart: from here on an own state, a child class and a child name are never taken for
// one another.
ghost use Rattle.std.specs.Prelude.{◌≡◌};
ghost use Rattle.records.specs.Bytes.{byte};
ghost use Rattle.records.specs.GuardRecords.{pattern_of};
ghost use Rattle.records.specs.Patterns.{pattern_as};

use crate::words::{byte_at, narrow_at};
use model::{ChildClass, ChildName, OwnState};

// The children that a guard or a do speaks of: all of them, or those of one class.
#[derive(Clone, Copy)]
pub enum Pattern {
    Everyone,
    OfClass(ChildClass),
}

// The own state that a byte is.
pub fn own_state_at(b: &[u8], at: usize) -> OwnState
    ensures { result.0 ≡ byte b.now at }
{
    OwnState(narrow_at(b, at))
}

// The child class that a byte is.
pub fn class_at(b: &[u8], at: usize) -> ChildClass
    ensures { result.0 ≡ byte b.now at }
{
    ChildClass(narrow_at(b, at))
}

// The child name that a byte is.
pub fn name_at(b: &[u8], at: usize) -> ChildName
    ensures { result.0 ≡ byte b.now at }
{
    ChildName(narrow_at(b, at))
}

// The pattern that a byte is: 255 for all children, else a child class.
pub fn pattern_at(b: &[u8], at: usize) -> Pattern
    ensures { pattern_as result ≡ pattern_of (byte b.now at) }
{
    if byte_at(b, at) == 255 {
        return Pattern::Everyone;
    }
    Pattern::OfClass(class_at(b, at))
}
