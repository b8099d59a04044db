// The one sheet of a class, accepted by the judge and read back as that class. Definitions and theorems alone.
#![tactic(auto)]
