// A sheet judged once: its bytes and the places of its bodies held in one struct, and the readers through which every question reads it,
// without a copy. The floors above speak of bodies, states and clauses, never of byte offsets.
#![tactic(auto)]

pub mod held;
pub mod readers;
