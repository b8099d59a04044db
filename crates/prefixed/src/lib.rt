// The guard records of a text, put in the sheet's order on one walk over its words: no stack and no recursion, however many brackets stand
// round a guard. What the walk does is in ordering/specs, that it is right in ordering/proofs and here in proofs/.
#![tactic(auto)]

pub mod inserts;
pub mod walks;
