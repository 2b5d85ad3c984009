// Both turns, called one after the other, and what each call refuses and writes: proved, and no code. `specs/` has the statements.
#![tactic(auto)]
