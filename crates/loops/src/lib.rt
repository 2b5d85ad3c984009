// Loops of descriptors: what stands at a place, a walk, and whether descriptors fill their loop to the last byte.
#![tactic(auto)]

pub mod descriptors;
pub mod walk;
