// Demand 3, whole runs of the collector: proved, and no code. `specs/Demand3.antt` has the statements.
#![tactic(auto)]
