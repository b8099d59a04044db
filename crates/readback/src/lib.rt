// The text that is written of a class is read back as that class. Definitions and theorems alone.
#![tactic(auto)]
