// The text of a class with its names, and the answer to a sheet whose text is asked for. Definitions and theorems alone.
#![tactic(auto)]
