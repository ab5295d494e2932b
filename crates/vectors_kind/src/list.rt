// Classes 10 and 13: record k of LED or OUT, and the OUT record at a place. For classes 5 and 6, every record of a list.
ghost use Rattle.std.specs.Prelude.{◌<◌};

use crate::names;
use led::LedRecord;
use lists::ListRecord;
use output::OutputRecord;
use payload_util::{Refusal, Row};
use vectors_case::{Case, LED, LED_BYTES, OUT_BYTES, u16_bytes};

// Whether the list has its wanted records, one for each of its whole records, and row 16 after the last.
pub(crate) fn records(c: Case, size: usize) -> bool
    requires { 0 < size }
{
    let n = c.input.len() / size;
    let mut parts = c.want.chunks_exact(size).enumerate();
    c.want.len() % size == 0
        && (c.wanted.is_err() || c.want.len() / size == n)
        && parts.all(|(k, want)| record(Case {
            argument: k,
            want,
            ..c
        }))
        && record(past(c, n))
}

// Asks for record n of n: row 16 if reading accepts.
fn past(c: Case, n: usize) -> Case {
    let refusal = Refusal::with_values(Row::NoSuchRecord, c.code, n, n);
    Case {
        argument: n,
        wanted: c.wanted.and(Err(refusal)),
        ..c
    }
}

// The count is that of the whole records, also if reading refuses the payload.
// Two arms: the borrow check covers no function over ListRecord that is passed led_bytes or output_bytes, since its bound names an array's length.
pub fn record(c: Case) -> bool {
    match c.code {
        LED => {
            let fixed = LedRecord::decode(c.input, c.argument).map(led_bytes);
            LedRecord::count(c.input) == c.input.len() / LED_BYTES
                && crate::reads(c, fixed, &[], LED_BYTES)
        }
        _ => {
            OutputRecord::count(c.input) == c.input.len() / OUT_BYTES
                && output(c, OutputRecord::decode(c.input, c.argument))
        }
    }
}

pub fn record_at(c: Case) -> bool {
    output(c, OutputRecord::decode_at(c.input, c.argument))
}

fn output(c: Case, read: Result<OutputRecord, Refusal>) -> bool {
    crate::reads(c, read.map(output_bytes), &[], OUT_BYTES)
}

// By hand, since the library's writers put the same bytes.
pub fn led_bytes(r: LedRecord) -> [u8; 14] {
    let temporary = r.temporary;
    let permanent = r.permanent;
    let timer = u16_bytes(temporary.timer);
    [
        r.reader,
        r.led,
        temporary.control,
        temporary.on_time,
        temporary.off_time,
        names::color(temporary.on_color),
        names::color(temporary.off_color),
        timer[0],
        timer[1],
        permanent.control,
        permanent.on_time,
        permanent.off_time,
        names::color(permanent.on_color),
        names::color(permanent.off_color),
    ]
}

fn output_bytes(r: OutputRecord) -> [u8; 4] {
    let timer = u16_bytes(r.timer);
    [r.output, names::output(r.code), timer[0], timer[1]]
}
