// The frames of a stream in words.
#![tactic(auto)]

mod buffer;
pub mod trace;
