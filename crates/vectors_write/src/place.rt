// Class 14: one record of LED or OUT written at a place.
ghost use Rattle.std.specs.Prelude.{◌≡◌, ◌⊎◌, true, length};
ghost use Rattle.vectors_case.specs.Buffer.{AllFrom, around};

use crate::record;
use lists::ListRecord;
use payload_util::Refusal;
use vectors_case::{Case, LED, filled};

pub fn run(c: Case, out: &mut [u8]) -> bool
    ensures { (result ≡ true) → (out.new ≡ around c.entry.argument c.entry.want.now (length out.new) c.entry.fill) ⊎ AllFrom out.new 0 c.entry.fill }
{
    // by `match`: with `is_some_and` the search does not prove the clause
    match c.lend_room(&mut *out, |room| encode_at(c, room)) {
        Some(written) => wrote_at(c, written, out),
        None => false,
    }
}

// Two arms, since the record's type goes by the code byte; each is one call.
fn encode_at(c: Case, out: &mut [u8]) -> Result<usize, Refusal> {
    match c.code {
        LED => record::led(c.input).encode_at(out, c.argument),
        _ => record::output(c.input).encode_at(out, c.argument),
    }
}

// Every byte of the buffer is looked at, also those behind the room.
fn wrote_at(c: Case, written: Result<usize, Refusal>, out: &[u8]) -> bool
    ensures { (result ≡ true) → (out.now ≡ around c.entry.argument c.entry.want.now (length out.now) c.entry.fill) ⊎ AllFrom out.now 0 c.entry.fill }
{
    match written {
        Ok(n) => c.wanted.is_ok() && n == c.want.len() && c.holds(out, c.argument),
        Err(e) => c.refuses(e) && filled(out, 0, c.fill),
    }
}
