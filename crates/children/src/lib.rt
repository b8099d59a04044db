// Child lists: read from bytes, checked against the sheet's child classes, and shown as one name set per class. What they mean is in
// specs/, what is shown of them in proofs/.
#![tactic(auto)]

pub mod crews;
pub mod lists;
