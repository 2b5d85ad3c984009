// The calls of `desk` as symbols for C: a static library has one export for each, which calls the library's function and states
// its promise again.
#![tactic(auto)]

mod delivery_writers;
mod list_writers;
mod text_writers;
