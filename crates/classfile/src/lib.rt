// Class files: the head in front of a class text. It names the child states, the commands and the child classes that the text is read
// with. What a head is, is in specs/; nothing is asked of a caller beforehand.
#![tactic(auto)]

pub mod fields;
pub mod heads;
pub mod parts;
