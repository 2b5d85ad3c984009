// What whole sequences of the calls for C come to: proved, and no code. `specs/` has the statements.
#![tactic(auto)]
