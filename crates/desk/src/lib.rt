// The writers of descriptors for C: each under the name that include/lohitunga.h gives it. The fields are the structs that
// the readings give, and what no reading would give is 112.
#![tactic(auto)]

pub mod answers;
pub mod delivery_writers;
pub mod list_writers;
pub mod text_writers;
