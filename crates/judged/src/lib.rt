// What an accepted sheet says of the class that it stands for. Definitions and theorems alone.
#![tactic(auto)]
