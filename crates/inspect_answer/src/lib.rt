// Payloads and frames in words, line by line.
#![tactic(auto)]

pub mod answer;
pub mod failure;
pub mod framed;
pub mod input;
mod record;
