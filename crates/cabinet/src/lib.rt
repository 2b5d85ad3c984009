// Lohitunga for C: each operation under the name that include/lohitunga.h gives it. Numbers, slices and structs of numbers
// alone pass, because no enum can cross `extern "C"`. Each promise says that the numbers are those of what the operation
// beneath answers.
#![tactic(auto)]

pub mod collect;
pub mod crc32;
pub mod delivery_readings;
pub mod interface;
pub mod judge;
pub mod list_readings;
mod moments;
mod numbers;
pub mod packets;
pub mod rolls;
pub mod section_parts;
pub mod sheets;
pub mod tag_search;
pub mod text_readings;
pub mod times;
pub mod walk;
