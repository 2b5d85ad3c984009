// The descriptors that are lists of items of one size: each item is read by its index.
#![tactic(auto)]

pub mod content;
pub mod local_time_offset;
pub mod parental_rating;
pub mod service_list;
