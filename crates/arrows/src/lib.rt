// The moves of a block: in which of its lanes each state's next move leads where, and how many moves can be made. What the words of the
// table say is in specs/Sorting.antt, the rounds that count moves in specs/Levels.antt.
#![tactic(auto)]

pub mod levels;
pub mod sorting;
