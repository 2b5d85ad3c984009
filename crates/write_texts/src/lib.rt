// The descriptors that hold texts or bytes of any value, written: the reverse of `texts`.
#![tactic(auto)]

pub mod network_name;
pub mod service;
pub mod short_event;
pub mod stuffing;
mod two;
mod whole;
