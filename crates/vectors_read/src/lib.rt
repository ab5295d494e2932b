// Cases that read a payload, on the library: classes 5, 6, 11 and 12 of crates/vectors.
#![tactic(auto)]

pub mod payload;
pub mod walker;
