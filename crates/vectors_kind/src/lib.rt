// The code tables, and the kinds' own readers: for classes 0, 5, 6, 10 and 13 of crates/vectors.
#![tactic(auto)]

pub mod list;
mod names;
mod read_bio;
mod read_command;
mod read_plain;
mod read_reply;
pub mod reader;
pub mod table;

use payload_util::Refusal;
use vectors_case::Case;

// Whether reading gives the wanted fixed fields, with which the wanted bytes begin, and the wanted tail, which is there from an index on; or
// the wanted refusal, and no tail.
fn reads<const N: usize>(c: Case, fixed: Result<[u8; N], Refusal>, tail: &[u8], at: usize) -> bool {
    match fixed {
        Ok(fields) => {
            c.wanted.is_ok() && c.want.starts_with(&fields) && c.want.get(at..) == Some(tail)
        }
        Err(e) => c.refuses(e) && tail.is_empty(),
    }
}
