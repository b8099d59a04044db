// The node: guards evaluated on one name set per class, and the probe on an accepted sheet.
#![tactic(auto)]

pub mod probing;
pub mod values;
