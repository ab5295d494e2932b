// The words of inspect: the names of codes, the sentences of refusals, and how bytes are shown.
#![tactic(auto)]

pub mod names;
pub mod sentences;
pub mod shown;
