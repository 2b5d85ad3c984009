// What a roll's steps and whole sequences of them come to: proved, and no code. `specs/` has the statements.
#![tactic(auto)]
