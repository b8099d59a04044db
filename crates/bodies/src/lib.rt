// The six bodies of a class sheet: clauses and statements, and rules 3 to 9, each over the bodies that it speaks of. What a record
// means and when a rule is kept is in specs/, what is shown of them in proofs/.
#![tactic(auto)]

pub mod checks;
pub mod clauses;
pub mod statements;
