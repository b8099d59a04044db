// The answer to a class text that is to be read. Definitions and theorems alone.
#![tactic(auto)]
