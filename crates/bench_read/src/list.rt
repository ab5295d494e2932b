// LED and OUT: every record of a payload that was checked once. How many there are is added to the number.
ghost use Rattle.payload_util.specs.Prelude.{check};
ghost use Rattle.led.specs.Led.{leds};
ghost use Rattle.output.specs.Output.{outputs};
ghost use Rattle.bench_read.specs.Answer.{Answers};

use crate::number::{answered, sum};
use led::{LedPermanent, LedRecord, LedTemporary};
use led_walker::LedWalker;
use lists::ListRecord;
use output::OutputRecord;
use payload_util::Payload;

fn temporary(t: LedTemporary) -> u64 {
    let bytes = sum(&[
        t.control,
        t.on_time,
        t.off_time,
        t.on_color.as_byte(),
        t.off_color.as_byte(),
    ]);
    bytes.wrapping_add(t.timer as u64)
}

fn permanent(p: LedPermanent) -> u64 {
    sum(&[
        p.control,
        p.on_time,
        p.off_time,
        p.on_color.as_byte(),
        p.off_color.as_byte(),
    ])
}

fn led(r: LedRecord) -> u64 {
    sum(&[r.reader, r.led])
        .wrapping_add(temporary(r.temporary))
        .wrapping_add(permanent(r.permanent))
}

fn output(r: OutputRecord) -> u64 {
    sum(&[r.output, r.code.as_byte()]).wrapping_add(r.timer as u64)
}

fn leds(walker: LedWalker<'_>) -> u64 {
    let count = LedRecord::count(walker.payload) as u64;
    walker.fold(count, |n, r| n.wrapping_add(led(r)))
}

// By offset, since that is what the reader that is measured takes.
fn outputs(p: &[u8]) -> u64 {
    let mut n = OutputRecord::count(p) as u64;
    for offset in (0..p.len()).step_by(OutputRecord::WIRE_LEN) {
        n = n.wrapping_add(OutputRecord::decode_at(p, offset).map_or(0, output));
    }
    n
}

#[unsafe(no_mangle)]
pub extern "C" fn bench_read_led(p: &[u8]) -> i32
    ensures { Answers (check leds p.now) result }
{
    answered(LedWalker::start(p), leds)
}

#[unsafe(no_mangle)]
pub extern "C" fn bench_read_out(p: &[u8]) -> i32
    ensures { Answers (check outputs p.now) result }
{
    answered(OutputRecord::check(p), |()| outputs(p))
}
