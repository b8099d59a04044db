// The search of the loop question, 64 configurations a word: the tables of an accepted sheet made once, and the blocks of configurations tried
// rising, until one has a loop. What the answer is, is in specs/Search.antt; what the class's clauses are as tables, in specs/ClauseTables.antt.
#![tactic(auto)]

pub mod clauses;
pub mod search;
