// Cases that write, on the library: classes 7, 8, 9 and 14 of crates/vectors.
#![tactic(auto)]

mod lend;
pub mod place;
mod record;
pub mod writer;
