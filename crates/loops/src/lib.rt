// The loop question on an accepted sheet: refusals 13 to 15; then the search of `blocks`; the configuration that it finds is spread into one
// name set per class, each state is probed once, and the smallest that returns to itself is named with the list. What the answer is, and demand
// 3 of it, is in `configurations`; the reply, with its refusals and the list that a loop writes, in specs/LoopQuestion.antt; the rest of specs/
// has what the code makes on the way.
#![tactic(auto)]

pub mod asked;
pub mod cells;
pub mod chase;
