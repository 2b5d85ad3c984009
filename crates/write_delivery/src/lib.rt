// The delivery systems, written: the reverse of `delivery`.
#![tactic(auto)]

mod body;
pub mod cable;
pub mod satellite;
pub mod terrestrial;
