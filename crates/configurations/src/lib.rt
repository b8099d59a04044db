// The loop question over a class: configurations, which loops each has, the answer, and demand 3 of it, proved over child lists of any
// length. Definitions and theorems; of code there is only the struct that holds the cells of a question.
#![tactic(auto)]

// The class and the name of each bit of a configuration, of the first 20 where there are more, 0 behind the last; and how many there are.
#[derive(Clone, Copy)]
pub struct Cells {
    pub classes: [u8; 20],
    pub names: [u8; 20],
    pub count: usize,
}
