// Typed readings of eleven descriptors. Each takes a descriptor's bytes from its tag on and answers the fields or a refusal.
#![tactic(auto)]

pub use delivery::{cable, satellite, terrestrial};
pub use layout::{Part, Refusal, bytes_of};
pub use lists::{content, local_time_offset, parental_rating, service_list};
pub use texts::{network_name, service, short_event, stuffing};
