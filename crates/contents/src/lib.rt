// What tables contain, as sections and sheets hold it: proved, and no code. `specs/` has the statements.
#![tactic(auto)]
