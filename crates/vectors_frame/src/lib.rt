// Classes 15 to 18: frames that are read, frames that are written, the two checks of bytes, and streams of a line.
#![tactic(auto)]

ghost use Rattle.std.specs.Prelude.{◌≡◌, true, ◌%◌, ℕ, [], ◌∷◌, ◌++◌};
ghost use Rattle.payload_util.specs.Bytes.{u16_bytes};
ghost use Rattle.payload_util.specs.Refusals.{Outcome};
ghost use Rattle.crc.specs.Crc.{crc_of};
ghost use Rattle.crc.specs.Sum.{sum_of, twos_complement};
ghost use Rattle.frame.specs.Frame.{check_frame};
ghost use Rattle.vectors_case.specs.Case.{Tried};

use frame::{Frame, Scanned};
use payload_util::Refusal;
use vectors_case::{Case, byte, u16_bytes, u32_at};

// The bytes before the payload in a frame, and of the fields in an output and in an input.
const HEAD: usize = 6;

const FIELDS: usize = 5;

const GIVEN: usize = 4;

// What a step of a stream is, in the output; how many bytes say this and its number, and how many a refusal has behind them.
const READ: u8 = 0;

const DAMAGED: u8 = 1;

const OTHER: u8 = 2;

const MORE: u8 = 3;

const STEP: usize = 5;

const REFUSAL: usize = 10;

// The bytes from one index up to another; none if there are no such bytes.
fn part(s: &[u8], from: usize, to: usize) -> &[u8] {
    s.get(from..to).unwrap_or(&[])
}

// All but the first n and the last m bytes; none if there are no others.
fn between(s: &[u8], n: usize, m: usize) -> &[u8] {
    part(s, n, s.len().saturating_sub(m))
}

fn record(f: &[u8], code: u8) -> Frame {
    Frame {
        address: byte(f, 0),
        reply: byte(f, 1) != 0,
        sequence: byte(f, 2),
        crc: byte(f, 3) != 0,
        code,
    }
}

// Whether payload_in gives what is between code and check, for a record with either check, whatever the frame.
fn is_inside(c: Case) -> bool {
    let f = c.input;
    let by_sum = record(&[0, 0, 0, 0], c.code);
    let by_crc = record(&[0, 0, 0, 1], c.code);
    by_sum.payload_in(f) == between(f, HEAD, 1) && by_crc.payload_in(f) == between(f, HEAD, 2)
}

// Whether bytes begin with what a record says.
fn has_fields(r: Frame, want: &[u8]) -> bool {
    let fields = [
        r.address,
        u8::from(r.reply),
        r.sequence,
        u8::from(r.crc),
        r.code,
    ];
    fields.as_slice() == part(want, 0, FIELDS)
}

// Whether the reader gives the wanted fields, or the wanted refusal.
fn is_read(c: Case) -> bool {
    match Frame::decode(c.input) {
        Ok(r) => c.wanted.is_ok() && has_fields(r, c.want),
        Err(e) => c.want.is_empty() && c.refuses(e),
    }
}

// Whether a frame is written as wanted.
fn is_written(c: Case, r: Frame, payload: &[u8], out: &mut [u8]) -> bool
    ensures { (result ≡ true) → (written : Outcome ℕ) × Tried c.entry written out.new }
{
    c.writes_wanted(out, |room| Some(r.encode(payload, room)))
}

// Class 15. The wanted output has the fields and then the payload; what was read is written again, and has to be the frame.
pub fn read(c: Case, out: &mut [u8]) -> bool
    ensures { (result ≡ true) → check_frame c.entry.input.now ≡ c.entry.wanted }
{
    let f = c.input;
    let is_right = c.guards(Frame::check(f))
        && is_read(c)
        && is_inside(c)
        && Frame::payload(f) == between(c.want, FIELDS, 0);
    if c.wanted.is_err() {
        return is_right;
    }
    let again = Case { want: f, ..c };
    is_right && is_written(again, record(c.want, c.code), Frame::payload(f), out)
}

// Class 16. The input has the fields without the code, and then the payload.
pub fn write(c: Case, out: &mut [u8]) -> bool
    ensures { (result ≡ true) → (written : Outcome ℕ) × Tried c.entry written out.new }
{
    is_written(c, record(c.input, c.code), between(c.input, GIVEN, 0), out)
}

// Class 17. The bytes as a whole and in two parts have the wanted CRC and sum; the argument is the start, its low byte that of the sum.
pub fn checks(c: Case) -> bool
    ensures { (result ≡ true) → u16_bytes (crc_of (c.entry.argument % 65536) c.entry.input.now) ++ sum_of (c.entry.argument % 256) c.entry.input.now
        ∷ twos_complement (sum_of (c.entry.argument % 256) c.entry.input.now) ∷ [] ≡ c.entry.want.now }
{
    let input = c.input;
    let start = (c.argument % 65536) as u16;
    let first = (c.argument % 256) as u8;
    let one = part(input, 0, input.len() / 2);
    let other = part(input, input.len() / 2, input.len());
    let whole = crc::crc(start, input);
    let sum = crc::sum(first, input);
    let bytes = u16_bytes(whole);
    [bytes[0], bytes[1], sum, crc::twos_complement(sum)].as_slice() == c.want
        && crc::crc(crc::crc(start, one), other) == whole
        && crc::sum(crc::sum(first, one), other) == sum
}

// Whether bytes begin with a refusal: row, code, and two numbers of four bytes.
fn has_refusal(e: Refusal, want: &[u8]) -> bool {
    let first = u32_at(want, 2) as usize;
    let second = u32_at(want, 6) as usize;
    vectors_case::wanted(byte(want, 0), byte(want, 1), first, second) == Some(Err(e))
}

// How many bytes of the output a step has, if it is the one that these begin with.
fn step_len(step: Scanned, want: &[u8]) -> Option<usize> {
    let said = part(want, STEP, want.len());
    let (what, n, is_said, len) = match step {
        Scanned::Read(r, n) => (READ, n, has_fields(r, said), STEP + FIELDS),
        Scanned::Damaged(e, n) => (DAMAGED, n, has_refusal(e, said), STEP + REFUSAL),
        Scanned::Other(n) => (OTHER, n, true, STEP),
        Scanned::More(n) => (MORE, n, true, STEP),
    };
    let is_wanted = byte(want, 0) == what && u32_at(want, 1) as usize == n && is_said;
    (is_wanted && len <= want.len()).then_some(len)
}

// Class 18. The argument says whether the stream has ended; the output has every step through it, up to its end or to where more bytes are wanted.
pub fn stream(c: Case) -> bool {
    let ended = c.argument != 0;
    let mut rest = c.input;
    let mut want = c.want;
    // a step is of at least one byte, or the last
    for _ in 0..=c.input.len() {
        let step = frame::scan(rest, ended);
        let Some(len) = step_len(step, want) else {
            return false;
        };
        want = part(want, len, want.len());
        let n = match step {
            Scanned::Read(_, n) | Scanned::Damaged(_, n) | Scanned::Other(n) => n,
            Scanned::More(_) => rest.len(),
        };
        rest = part(rest, n, rest.len());
        if rest.is_empty() {
            return want.is_empty();
        }
    }
    false
}
