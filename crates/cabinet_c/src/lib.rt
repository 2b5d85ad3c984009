// The calls of `cabinet` as symbols for C: a static library has one export for each, which calls the library's function and states
// its promise again.
#![tactic(auto)]

mod collect;
mod crc32;
mod delivery_readings;
mod interface;
mod judge;
mod list_readings;
mod packets;
mod rolls;
mod section_parts;
mod sheets;
mod tag_search;
mod text_readings;
mod times;
mod walk;
