// Kinds of one exact length whose fields take every value: a module for each Rust file.
#![tactic(auto)]

pub mod acu_rx_size;
pub mod com;
pub mod comset;
pub mod keep_active;
pub mod lstat;
pub mod pdid;
