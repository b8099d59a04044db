// Texts of ASCII bytes in lent buffers: numbers and byte strings written and read. Nothing is asked of a caller beforehand.
// What the texts are is in specs/Texts.antt and specs/Fields.antt.
#![tactic(auto)]

pub mod reading;
pub mod writing;
