// A section's head as crate `head` reads it is what its sheet shows: proved, and no code. `specs/` has the statements.
#![tactic(auto)]
