// The frame round a payload: 0x53, address, whole length u16, control, code, payload, check; and the frames of a stream of bytes.
#![tactic(auto)]

ghost use Rattle.std.specs.Prelude.{◌≡◌, ◌++◌, ◌+◌, ◌≤◌, ◌<◌, cond, length};
ghost use Rattle.frame.specs.Frame.{known_code, check_len, check_over, right_check, front, control, check_frame, fields_of, read_frame, payload_in, frame_payload, head_bytes, refuse_frame, write_frame};

mod scanner;

use codes::{CommandCode, ReplyCode};
use payload_util::{
    Refusal, Row, byte_at, put_parts, require, require_at_least, require_declared_len, u16_at,
};
pub use scanner::{Scanned, scan};

// What a frame says beside its payload.
#[derive(Clone, Copy, Debug, PartialEq, Eq)]
pub struct Frame {
    // 0 to 127
    pub address: u8,
    // a reply, or a command
    pub reply: bool,
    // 0 to 3
    pub sequence: u8,
    // checked by a CRC, or by a sum
    pub crc: bool,
    pub code: u8,
}

// Rows 1 and 2: the code is in the table of replies, or of commands.
#[tactic(auto, unfolding(crate::specs::Frame::known_code))]
fn require_code(reply: bool, code: u8) -> Result<(), Refusal>
    ensures { result ≡ known_code reply code }
{
    if reply {
        ReplyCode::from_byte(code)?;
    } else {
        CommandCode::from_byte(code)?;
    }
    Ok(())
}

// How many bytes the check has.
fn check_len(crc: bool) -> usize
    ensures { (result ≡ check_len crc) × (1 ≤ result) × (result ≤ 2) }
{
    if crc { 2 } else { 1 }
}

// The value if it is asked for, else 0.
fn value_if(asked: bool, value: u8) -> u8
    ensures { (result ≡ cond asked value 0) × (result ≤ value) }
{
    if asked { value } else { 0 }
}

// The check over two parts, as a number.
#[tactic(auto, using(crc::proofs::Laws::crc_parts, crc::proofs::Laws::sum_parts), unfolding(crate::specs::Frame::check_over))]
fn check_over(crc: bool, head: &[u8], payload: &[u8]) -> u16
    ensures { result ≡ check_over crc (head.now ++ payload.now) }
{
    if crc {
        return crc::crc(crc::crc(Frame::CRC_START, head), payload);
    }
    crc::twos_complement(crc::sum(crc::sum(0, head), payload)) as u16
}

// Row 21.
#[tactic(auto, using(crate::proofs::Laws::check_alone), unfolding(crate::specs::Frame::right_check))]
fn require_check(f: &[u8], crc: bool) -> Result<(), Refusal>
    ensures { result ≡ right_check crc f.now }
{
    let end = f.len().saturating_sub(check_len(crc));
    let sent = u16_at(f, end);
    require(
        sent == check_over(crc, &f[..end], &[]),
        Refusal::new(Row::WrongCheck, 0),
    )
}

impl Frame {
    // The first byte of every frame.
    pub const SOM: u8 = 0x53;

    // The house limit.
    pub const LONGEST: usize = 1440;

    // The bytes before the payload.
    pub const HEAD: usize = 6;

    pub const CRC_START: u16 = 0x1D0F;

    // Set in the address of a reply; the rest is the address.
    const REPLY_BIT: u8 = 0x80;

    // Set in a control byte that asks for a CRC; what is below it is the sequence.
    const CRC_BIT: u8 = 0x04;

    // Set in a control byte that announces a security block.
    const SECURE_BIT: u8 = 0x08;

    // Rows 4, 20, 22, 6.
    #[tactic(auto, unfolding(crate::specs::Frame::front))]
    fn front(f: &[u8]) -> Result<(), Refusal>
        ensures { result ≡ front f.now }
    {
        require_at_least(f, 7, 0)?;
        require(byte_at(f, 0) == Self::SOM, Refusal::new(Row::NotAFrame, 0))?;
        require(f.len() <= Self::LONGEST, Refusal::new(Row::FrameTooLong, 0))?;
        require_declared_len(f, u16_at(f, 2) as usize, 0)
    }

    // Rows 20, 4, 21.
    #[tactic(auto, unfolding(crate::specs::Frame::control))]
    fn control(f: &[u8]) -> Result<(), Refusal>
        ensures { result ≡ control f.now }
    {
        let control = byte_at(f, 4);
        require(control < Self::SECURE_BIT, Refusal::new(Row::NotAFrame, 0))?;
        let crc = Self::CRC_BIT <= control;
        require_at_least(f, Self::HEAD + check_len(crc), 0)?;
        require_check(f, crc)
    }

    // All refusals before the code's have code byte 0.
    #[tactic(auto, unfolding(crate::specs::Frame::check_frame))]
    pub fn check(f: &[u8]) -> Result<(), Refusal>
        ensures { result ≡ check_frame f.now }
    {
        Self::front(f)?;
        Self::control(f)?;
        require_code(Self::REPLY_BIT <= byte_at(f, 1), byte_at(f, 5))
    }

    fn fields(f: &[u8]) -> Frame
        ensures { result ≡ fields_of f.now }
    {
        let [address, control] = [byte_at(f, 1), byte_at(f, 4)];
        Frame {
            address: address % Self::REPLY_BIT,
            reply: Self::REPLY_BIT <= address,
            sequence: control % Self::CRC_BIT,
            crc: Self::CRC_BIT <= control,
            code: byte_at(f, 5),
        }
    }

    pub fn decode(f: &[u8]) -> Result<Frame, Refusal>
        ensures { result ≡ read_frame f.now }
    {
        Self::check(f)?;
        Ok(Self::fields(f))
    }

    // The payload in a frame that was read as self; no byte of it is looked at.
    pub fn payload_in(self, f: &[u8]) -> &[u8]
        ensures { result.now ≡ payload_in self f.now }
    {
        let end = f.len().saturating_sub(check_len(self.crc));
        f.get(Self::HEAD..end).unwrap_or(&[])
    }

    // The payload; empty if reading refuses. It checks the whole frame again: payload_in does not.
    pub fn payload(f: &[u8]) -> &[u8]
        ensures { result.now ≡ frame_payload f.now }
    {
        Self::decode(f).map_or(&[], |frame| frame.payload_in(f))
    }

    // Rows 20, 1 or 2, 22, for a frame of so many bytes.
    #[tactic(auto, unfolding(crate::specs::Frame::refuse_frame))]
    fn refuse(self, len: usize) -> Result<(), Refusal>
        ensures { result ≡ refuse_frame self len }
    {
        let no_frame = Refusal::new(Row::NotAFrame, self.code);
        require(self.address < Self::REPLY_BIT, no_frame)?;
        require(self.sequence < Self::CRC_BIT, no_frame)?;
        require_code(self.reply, self.code)?;
        require(
            len <= Self::LONGEST,
            Refusal::new(Row::FrameTooLong, self.code),
        )
    }

    // The bytes before the payload, in a frame of so many bytes.
    fn head(self, len: u16) -> [u8; 6]
        requires { (self.address < 128) × (self.sequence < 4) }
        ensures { result ≡ head_bytes self len }
    {
        let [low, high] = len.to_le_bytes();
        [
            Self::SOM,
            self.address + value_if(self.reply, Self::REPLY_BIT),
            low,
            high,
            self.sequence + value_if(self.crc, Self::CRC_BIT),
            self.code,
        ]
    }

    // All refusals have self's code byte.
    #[tactic(auto, using(crate::proofs::Laws::writable_fits))]
    pub fn encode(self, payload: &[u8], out: &mut [u8]) -> Result<usize, Refusal>
        ensures { (result, out.new) ≡ write_frame self payload.now out.old }
    {
        let last = check_len(self.crc);
        let len = Self::HEAD + payload.len() + last;
        self.refuse(len)?;
        let head = self.head(len as u16);
        let value = check_over(self.crc, &head, payload);
        let check = value.to_le_bytes();
        // Two calls, each with a check of known length: else the copy of it asks for memcpy from outside.
        if self.crc {
            return put_parts(&head, payload, &check, self.code, out);
        }
        put_parts(&head, payload, &check[..1], self.code, out)
    }
}
