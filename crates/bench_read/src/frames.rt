// Frames: a frame that is read, one that is written, and the CRC alone.
ghost use Rattle.std.specs.Prelude.{◌≡◌};
ghost use Rattle.crc.specs.Crc.{crc_of};
ghost use Rattle.frame.specs.Examples.{frame};
ghost use Rattle.frame.specs.Frame.{check_frame, write_frame};
ghost use Rattle.osdp.specs.Signed.{count_of, effect_of, Short};
ghost use Rattle.bench_read.specs.Answer.{Answers};

use crate::number::{answered, refused, sum, tailed};
use frame::Frame;
use payload_util::Refusal;

#[unsafe(no_mangle)]
pub extern "C" fn bench_read_frame(f: &[u8]) -> i32
    ensures { Answers (check_frame f.now) result }
{
    answered(Frame::decode(f), |r| {
        let n = sum(&[
            r.address,
            u8::from(r.reply),
            r.sequence,
            u8::from(r.crc),
            r.code,
        ]);
        tailed(n, r.payload_in(f))
    })
}

// osdp_c has the same: neither static library can use the other, and in osdp it would be a public function that asks something of its caller.
fn count_of(written: Result<usize, Refusal>) -> i32
    requires { Short written }
    ensures { result ≡ count_of written }
{
    match written {
        Ok(n) => n as i32,
        Err(e) => refused(e),
    }
}

// It answers as the C calls that write do: how many bytes were written, or the refusal's number negated.
#[unsafe(no_mangle)]
pub extern "C" fn bench_write_frame(
    address: u8,
    reply: bool,
    sequence: u8,
    crc: bool,
    code: u8,
    p: &[u8],
    out: &mut [u8],
) -> i32
    ensures { (result, out.new) ≡ effect_of (write_frame (frame address reply sequence crc code) p.now out.old) }
{
    let frame = Frame {
        address,
        reply,
        sequence,
        crc,
        code,
    };
    count_of(frame.encode(p, out))
}

#[unsafe(no_mangle)]
pub extern "C" fn bench_crc(start: u16, bytes: &[u8]) -> u16
    ensures { result ≡ crc_of start bytes.now }
{
    crc::crc(start, bytes)
}
