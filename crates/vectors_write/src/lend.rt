// The lists of LED and OUT: records made by hand that are lent to the list writer.
ghost use Rattle.std.specs.Prelude.{◌≡◌, List, ◌<◌, IfSome};
ghost use Rattle.payload_util.specs.Prelude.{write, listed};
ghost use Rattle.led.specs.Led.{leds};
ghost use Rattle.led.specs.declared.LedRecord.{LedRecord};
ghost use Rattle.output.specs.Output.{outputs};
ghost use Rattle.output.specs.declared.OutputRecord.{OutputRecord};

use crate::record;
use led::LedRecord;
use lists::ListRecord;
use output::OutputRecord;
use payload_util::Refusal;
use vectors_case::{LED_BYTES, OUT_BYTES};

// The most records that are lent. A case with more of them differs, and so does one whose bytes are not whole records.
const MOST: usize = 1024;

// The arrays are made here: of a type that is a parameter, the check does not know that so many fit into memory. An ArrayVec would need a Default,
// which a record has not.
pub(crate) fn leds(f: &[u8], out: &mut [u8]) -> Option<Result<usize, Refusal>>
    ensures written { IfSome result (λ w. (records : List LedRecord) × ((w, out.new) ≡ write leds records out.old)) }
{
    lend(
        &mut [record::led(&[]); MOST],
        record::led,
        LED_BYTES,
        f,
        out,
    )
}

pub(crate) fn outputs(f: &[u8], out: &mut [u8]) -> Option<Result<usize, Refusal>>
    ensures written { IfSome result (λ w. (records : List OutputRecord) × ((w, out.new) ≡ write outputs records out.old)) }
{
    lend(
        &mut [record::output(&[]); MOST],
        record::output,
        OUT_BYTES,
        f,
        out,
    )
}

// Makes records of size bytes each in a list that is long enough, and lends them to the library's writer. None if it is too short, or the bytes are
// not whole records.
fn lend<R: ListRecord, F: Fn(&[u8]) -> R>(
    list: &mut [R],
    made: F,
    size: usize,
    f: &[u8],
    out: &mut [u8],
) -> Option<Result<usize, Refusal>>
    requires callable { F.IsAlwaysCallable made }
    requires some { 0 < size }
    ensures written { IfSome result (λ w. (records : List R) × ((w, out.new) ≡ write (listed R.list_row) records out.old)) }
{
    if f.len() % size != 0 {
        return None;
    }
    let records = list.get_mut(..f.len() / size)?;
    for (record, bytes) in records.iter_mut().zip(f.chunks_exact(size)) {
        *record = made(bytes);
    }
    Some(R::encode(records, out))
}
