// The descriptors that are lists of items of one size, written: the reverse of `lists`. An item is a row of numbers.
#![tactic(auto)]

pub mod content;
mod kinds;
pub mod local_time_offset;
mod numbers;
mod offsets;
pub mod parental_rating;
mod pieces;
mod rows;
pub mod service_list;
mod times;
