// Lanes: 64 configurations that differ in their lowest six bits are a block, and a word of 64 bits has in bit i what is true in
// configuration base + i. What a word says is in specs/Lanes.antt, a mask over the cells in specs/Masks.antt.
#![tactic(auto)]

pub mod counting;
pub mod masks;
pub mod words;
