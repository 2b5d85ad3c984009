// The descriptors that hold texts or bytes of any value: each is handed out as a part of the caller's bytes.
#![tactic(auto)]

pub mod network_name;
pub mod service;
pub mod short_event;
pub mod stuffing;
mod whole;
