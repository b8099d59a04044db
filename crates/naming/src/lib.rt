// Names in the lent lists, and the class that a text stands for. Definitions and theorems alone.
#![tactic(auto)]
