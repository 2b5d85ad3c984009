// Sections: whether bytes are one.
#![tactic(auto)]

mod entries;
pub mod judge;
