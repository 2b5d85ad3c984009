// The worked values that document 01 has starred: proved, and no code. `specs/Worked.antt` has the list.
#![tactic(auto)]
