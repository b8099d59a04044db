// The lines of answers, one for each question that `questions` is asked. Nothing is asked of a caller beforehand. What the lines are is in
// specs/Lines.antt.
#![tactic(auto)]

pub mod answers;
