// The truth of every guard record in a block of 64 configurations: each record is looked at once a block, from the last to the first,
// whatever guards share it. What is made of the records once a question is in specs/Plans.antt, the words in specs/Words.antt.
#![tactic(auto)]

pub mod filling;
pub mod plans;
