// Runs one case on the library.
use crate::stream::{Entry, PLACE};
use osdp::Side;
use payload_util::{
    require_at_least, require_exact_len, require_multiple_of, require_positive_multiple_of,
};
use vectors_case::Case;
use vectors_kind::{list, table};
use vectors_read::{payload, walker};
use vectors_write::{place, writer};

// The highest class of a case.
pub const LAST: u8 = 18;

// The class of the checks of bytes, which are refused nothing.
const CHECKS: u8 = 17;

// Tries a case with its input, the wanted output, and a buffer that is longer than both together. False if no row has the wanted number, which is
// looked at in each class that can be refused.
pub fn run(e: Entry, out: &mut [u8]) -> bool {
    let h = e.head;
    let unread = (h.class == CHECKS).then_some(Ok(()));
    let Some(wanted) = h.wanted.or(unread) else {
        return false;
    };
    let n = e.want.len();
    // a writer of n bytes is given the whole buffer, n bytes of it, one byte less, or none; the buffer is filled with one of two bytes, so that
    // a byte that is not written differs from the wanted one in some try
    let tries = [
        (out.len(), 0x5A),
        (n, 0xA5),
        (n.saturating_sub(1), 0xA5),
        (0, 0xA5),
    ];
    tries.iter().all(|&(room, fill)| {
        let c = Case {
            code: h.code,
            argument: h.argument,
            input: e.input,
            wanted,
            want: e.want,
            room: h.room.unwrap_or(room),
            fill,
        };
        once(h.class, c, &mut *out)
    })
}

fn once(class: u8, c: Case, out: &mut [u8]) -> bool {
    match class {
        0 => table::run(c),
        1 => c.guards(require_exact_len(c.input, c.argument, c.code)),
        2 => c.guards(require_at_least(c.input, c.argument, c.code)),
        3 => c.guards(require_positive_multiple_of(c.input, c.argument, c.code)),
        4 => c.guards(require_multiple_of(c.input, c.argument, c.code)),
        5 => payload::run(Side::Command, c, out),
        6 => payload::run(Side::Reply, c, out),
        7 => writer::command(c, out),
        8 => writer::reply(c, out),
        9 => writer::bits(c, out),
        10 => list::record(c),
        11 => walker::start(c),
        12 => walker::run(c),
        13 => list::record_at(c),
        PLACE => place::run(c, out),
        15 => vectors_frame::read(c, out),
        16 => vectors_frame::write(c, out),
        CHECKS => vectors_frame::checks(c),
        18 => vectors_frame::stream(c),
        _ => false,
    }
}
