// What every payload kind shares: the refusal, the guards of payload_util.rs, numbers of several bytes, and the last step of every writer.
#![tactic(auto)]

ghost use Rattle.std.specs.Prelude.{◌≡◌, ◌&&◌, ◌++◌, ltb, leb, eqb, ◌+◌, ◌*◌, ◌/◌, ◌%◌, ◌≤◌, ◌<◌, min, length, drop};
ghost use Rattle.std.proofs.Math.Seq.{paste};
ghost use Rattle.payload_util.specs.Refusals.{number_of, refusal, require};
ghost use Rattle.payload_util.specs.Bytes.{byte_at, u16_at, u32_at, u16_bytes, u32_bytes};
ghost use Rattle.payload_util.specs.Outcome.{tail_where};
ghost use Rattle.payload_util.specs.Guards.{exact_len, at_least, positive_multiple_of, multiple_of, declared_len, head_and_tail, at_most, tail_len, room, present};
ghost use Rattle.payload_util.specs.Loss.{up_to, kept, keep, only_at};
ghost use Rattle.payload_util.specs.Writing.{put};

mod payload;

pub use crate::payload::{Payload, Record};

// The rows of the refusal table, by their numbers: what is refused, and what first and second are if it has them.
#[derive(Clone, Copy, Debug, PartialEq, Eq)]
pub enum Row {
    // the byte is no command code
    UnknownCommand = 1,
    // the byte is no reply code
    UnknownReply = 2,
    // the length is not the exact one: expected, got
    PayloadLength = 3,
    // the length is below the least: least, got
    PayloadTooShort = 4,
    // the payload is empty, or its length no multiple: block, got
    PayloadNotMultiple = 5,
    // a length or count field does not fit the payload: asked for in all, got
    DeclaredLength = 6,
    // an output code is above 6
    UnknownOutputCode = 7,
    // a byte of a text is not printable
    UnprintableText = 8,
    // the command of a TEXT is none of 1 to 4
    UnknownTextCommand = 9,
    // the error of a NAK is above 9
    UnknownNakError = 10,
    // a list to be written has no record
    EmptyList = 11,
    // a tail to be written is too long
    TailTooLong = 12,
    // the count of a record does not fit the tail to be written
    TailLength = 13,
    // the code is known, but its payload not carried
    NotCarried = 14,
    // the output buffer is too short: needed, given
    BufferTooShort = 15,
    // the list has no such record: index, how many
    NoSuchRecord = 16,
    // a byte that reading would fold: offset, byte
    Folded = 17,
    // a colour that readers of the first generation do not know: offset, byte
    SecondGenerationColor = 18,
    // the first byte, the control byte, the address or the sequence is not a frame's
    NotAFrame = 20,
    // the check of a frame is wrong
    WrongCheck = 21,
    // a frame is above the house limit
    FrameTooLong = 22,
    // the payload is above the longest: longest, got
    PayloadTooLong = 28,
}

impl Row {
    pub fn number(self) -> u8
        ensures { result ≡ number_of self }
    {
        self as u8
    }
}

// A row of the refusal table, with the payload's code byte, and the two values that the row names, 0 if it names none.
#[derive(Clone, Copy, Debug, PartialEq, Eq)]
pub struct Refusal {
    pub row: Row,
    pub code: u8,
    pub first: usize,
    pub second: usize,
}

impl Refusal {
    // A refusal by a row that names no values.
    pub fn new(row: Row, code: u8) -> Refusal
        ensures { result ≡ refusal row code 0 0 }
    {
        Refusal::with_values(row, code, 0, 0)
    }

    pub fn with_values(row: Row, code: u8, first: usize, second: usize) -> Refusal
        ensures { result ≡ refusal row code first second }
    {
        Refusal {
            row,
            code,
            first,
            second,
        }
    }
}

// Passes if the test holds.
pub fn require(holds: bool, refusal: Refusal) -> Result<(), Refusal>
    ensures { result ≡ require holds refusal }
{
    if holds { Ok(()) } else { Err(refusal) }
}

// Row 3.
#[tactic(auto, unfolding(crate::specs::Guards::exact_len))]
pub fn require_exact_len(payload: &[u8], expected: usize, code: u8) -> Result<(), Refusal>
    ensures { result ≡ exact_len expected code payload.now }
{
    require(
        payload.len() == expected,
        Refusal::with_values(Row::PayloadLength, code, expected, payload.len()),
    )
}

// Row 4.
#[tactic(auto, unfolding(crate::specs::Guards::at_least))]
pub fn require_at_least(payload: &[u8], min: usize, code: u8) -> Result<(), Refusal>
    ensures { result ≡ at_least min code payload.now }
{
    require(
        min <= payload.len(),
        Refusal::with_values(Row::PayloadTooShort, code, min, payload.len()),
    )
}

// Whether n bytes are whole blocks, and at least `least` bytes; false if a block is 0.
fn in_blocks(least: usize, block: usize, n: usize) -> bool
    ensures { result ≡ (ltb 0 block && leb least n && eqb (n % block) 0) }
{
    0 < block && least <= n && n % block == 0
}

// Row 5, also for an empty payload.
#[tactic(auto, unfolding(crate::specs::Guards::blocks_from))]
pub fn require_positive_multiple_of(payload: &[u8], block: usize, code: u8) -> Result<(), Refusal>
    ensures { result ≡ positive_multiple_of block code payload.now }
{
    let n = payload.len();
    require(
        in_blocks(1, block, n),
        Refusal::with_values(Row::PayloadNotMultiple, code, block, n),
    )
}

// Row 5; a block of 0 is refused too.
#[tactic(auto, unfolding(crate::specs::Guards::blocks_from))]
pub fn require_multiple_of(payload: &[u8], block: usize, code: u8) -> Result<(), Refusal>
    ensures { result ≡ multiple_of block code payload.now }
{
    let n = payload.len();
    require(
        in_blocks(0, block, n),
        Refusal::with_values(Row::PayloadNotMultiple, code, block, n),
    )
}

// Row 6: the payload has as many bytes as its fields ask for.
#[tactic(auto, unfolding(crate::specs::Guards::declared_len))]
pub fn require_declared_len(payload: &[u8], asked: usize, code: u8) -> Result<(), Refusal>
    ensures { result ≡ declared_len asked code payload.now }
{
    require(
        payload.len() == asked,
        Refusal::with_values(Row::DeclaredLength, code, asked, payload.len()),
    )
}

// Rows 4 and 6: the fixed fields, and a tail of as many bytes as they ask for.
#[tactic(auto, using(crate::proofs::Guards::passed, crate::proofs::Guards::stopped, crate::proofs::Guards::skipped, crate::proofs::Guards::least_pass))]
pub fn require_head_and_tail(
    payload: &[u8],
    head: usize,
    tail: u16,
    code: u8,
) -> Result<(), Refusal>
    ensures { result ≡ head_and_tail head tail code payload.now }
{
    require_at_least(payload, head, code)?;
    require_declared_len(payload, head + tail as usize, code)
}

// Row 12: a tail that is to be written has at most max bytes.
#[tactic(auto, unfolding(crate::specs::Guards::at_most))]
pub fn require_at_most(tail: &[u8], max: usize, code: u8) -> Result<(), Refusal>
    ensures { result ≡ at_most max code tail.now }
{
    require(tail.len() <= max, Refusal::new(Row::TailTooLong, code))
}

// Row 13: a tail that is to be written has as many bytes as the record's count asks for.
#[tactic(auto, unfolding(crate::specs::Guards::tail_len))]
pub fn require_tail_len(tail: &[u8], asked: usize, code: u8) -> Result<(), Refusal>
    ensures { result ≡ tail_len asked code tail.now }
{
    require(tail.len() == asked, Refusal::new(Row::TailLength, code))
}

// Row 15: the buffer has room for what is to be written.
#[tactic(auto, unfolding(crate::specs::Guards::room))]
pub fn require_room(needed: usize, code: u8, given: usize) -> Result<(), Refusal>
    ensures { result ≡ room code needed given }
{
    require(
        needed <= given,
        Refusal::with_values(Row::BufferTooShort, code, needed, given),
    )
}

// Row 16: a list has a record at this index.
#[tactic(auto, unfolding(crate::specs::Guards::present))]
pub fn require_present(index: usize, count: usize, code: u8) -> Result<(), Refusal>
    ensures { result ≡ present code index count }
{
    require(
        index < count,
        Refusal::with_values(Row::NoSuchRecord, code, index, count),
    )
}

// Refuses by this row if the byte at the offset is above the highest.
pub fn require_limit(
    payload: &[u8],
    offset: usize,
    highest: u8,
    row: Row,
    code: u8,
) -> Result<(), Refusal>
    ensures { result ≡ require (leb (byte_at payload.now offset) highest) (refusal row code offset (byte_at payload.now offset)) }
{
    let b = byte_at(payload, offset);
    require(
        b <= highest,
        Refusal::with_values(row, code, offset, b as usize),
    )
}

// The byte if it is not above the highest, else 0.
pub fn folded(b: u8, highest: u8) -> u8
    ensures { result ≡ kept (up_to highest) b }
{
    if b <= highest { b } else { 0 }
}

// Folds the byte at an offset, and no other; an offset past the end changes nothing.
#[tactic(auto, using(crate::proofs::Folds::only_at_lem, crate::proofs::Folds::only_past))]
pub fn fold_at(out: &mut [u8], offset: usize, highest: u8)
    ensures { out.new ≡ keep (only_at offset highest) out.old }
{
    if offset < out.len() {
        out[offset] = folded(out[offset], highest);
    }
}

// The bytes from an offset on; none if the payload ends before it.
pub fn tail_from(payload: &[u8], offset: usize) -> &[u8]
    ensures { result.now ≡ drop offset payload.now }
{
    payload.get(offset..).unwrap_or(&[])
}

// The tail of a payload that passed its checks; empty for any other payload.
pub fn tail_where(checked: Result<(), Refusal>, payload: &[u8], offset: usize) -> &[u8]
    ensures { result.now ≡ tail_where checked (drop offset payload.now) }
{
    checked.map_or(&[], |()| tail_from(payload, offset))
}

// The byte at an offset, and the numbers of two and of four bytes there, low byte first; a byte past the end counts as 0.
pub fn byte_at(payload: &[u8], offset: usize) -> u8
    ensures { result ≡ byte_at payload.now offset }
{
    payload.get(offset).copied().unwrap_or(0)
}

pub fn u16_at(payload: &[u8], offset: usize) -> u16
    ensures { result ≡ u16_at payload.now offset }
{
    let part = tail_from(payload, offset);
    u16::from_le_bytes([byte_at(part, 0), byte_at(part, 1)])
}

pub fn u32_at(payload: &[u8], offset: usize) -> u32
    ensures { result ≡ u32_at payload.now offset }
{
    let part = tail_from(payload, offset);
    u32::from_le_bytes([
        byte_at(part, 0),
        byte_at(part, 1),
        byte_at(part, 2),
        byte_at(part, 3),
    ])
}

// The bytes of a number, low byte first, in the words of the definitions.
pub fn u16_bytes(n: u16) -> [u8; 2]
    ensures { result ≡ u16_bytes n }
{
    u16::to_le_bytes(n)
}

pub fn u32_bytes(n: u32) -> [u8; 4]
    ensures { result ≡ u32_bytes n }
{
    u32::to_le_bytes(n)
}

// Copies all of src into out from an offset on.
fn copy_at(src: &[u8], out: &mut [u8], offset: usize)
    requires { offset + length src.now ≤ length out.old }
    ensures { out.new ≡ paste out.old offset src.now (length src.now) }
{
    out[offset..offset + src.len()].copy_from_slice(src);
}

// Writes head and then tail at the front of out, or refuses and leaves out as it is.
#[tactic(auto, using(crate::proofs::Guards::passed, crate::proofs::Guards::room_pass))]
pub fn put_bytes(head: &[u8], tail: &[u8], code: u8, out: &mut [u8]) -> Result<usize, Refusal>
    ensures { (result, out.new) ≡ put code (head.now ++ tail.now) out.old }
{
    let needed = head.len() + tail.len();
    require_room(needed, code, out.len())?;
    copy_at(head, out, 0);
    copy_at(tail, out, head.len());
    Ok(needed)
}

// Writes three parts as put_bytes writes two.
#[tactic(auto, using(crate::proofs::Guards::passed, crate::proofs::Guards::room_pass))]
pub fn put_parts(
    head: &[u8],
    body: &[u8],
    tail: &[u8],
    code: u8,
    out: &mut [u8],
) -> Result<usize, Refusal>
    ensures { (result, out.new) ≡ put code ((head.now ++ body.now) ++ tail.now) out.old }
{
    let last = head.len() + body.len();
    let needed = last.saturating_add(tail.len());
    require_room(needed, code, out.len())?;
    copy_at(head, out, 0);
    copy_at(body, out, head.len());
    copy_at(tail, out, last);
    Ok(needed)
}

// Writes a payload as it came, in one copy.
#[tactic(auto, using(crate::proofs::Guards::passed, crate::proofs::Guards::room_pass))]
pub fn put_payload(payload: &[u8], code: u8, out: &mut [u8]) -> Result<usize, Refusal>
    ensures { (result, out.new) ≡ put code payload.now out.old }
{
    let needed = payload.len();
    require_room(needed, code, out.len())?;
    copy_at(payload, out, 0);
    Ok(needed)
}
