// The delivery systems. Each has a frequency that counts steps of its own.
#![tactic(auto)]

pub mod cable;
pub mod satellite;
pub mod terrestrial;
