// The records of a sheet's bodies: numbers in a byte string, the kinds of numbers told apart, name sets, and guard records. What a
// record is is in specs/, what is shown of them in proofs/.
#![tactic(auto)]

pub mod guards;
pub mod kinds;
pub mod sets;
pub mod words;
