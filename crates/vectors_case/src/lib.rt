// A case with its wanted answer, and what every comparison shares: buffers that are filled up, and the fields of records made by hand.
#![tactic(auto)]

ghost use Rattle.std.specs.Prelude.{◌≡◌, true, ◌↔◌, ◌≤◌, ◌<◌, ℕ, length, take, replicate, Some, IfSome};
ghost use Rattle.std.specs.Fn.{FnOnceReturnsAtMut};
ghost use Rattle.payload_util.specs.Bytes.{byte_at, u16_at, u32_at, u16_bytes, u32_bytes};
ghost use Rattle.payload_util.specs.Refusals.{number_of, Guard, Outcome};
ghost use Rattle.payload_util.specs.declared.Row.{Row};
ghost use Rattle.vectors_case.specs.Case.{IsWanted, wanted_of_first, wanted_answer, wanted_effect, Tried};
ghost use Rattle.vectors_case.specs.Buffer.{AllFrom, around, putting};

use payload_util::{Refusal, Row};

// The code bytes of the kinds and the bytes of a list's record, by docs/REQUIREMENTS.md. The library's own are not used, since they are
// what is tested.
pub const LED: u8 = 0x69;

pub const OUT: u8 = 0x68;

pub const TEXT: u8 = 0x6B;

pub const BIOREAD: u8 = 0x73;

pub const BIOMATCH: u8 = 0x74;

pub const FILETRANSFER: u8 = 0x7C;

pub const MFG: u8 = 0x80;

pub const RAW: u8 = 0x50;

pub const FMT: u8 = 0x51;

pub const BIOREADR: u8 = 0x57;

pub const BIOMATCHR: u8 = 0x58;

pub const NAK: u8 = 0x41;

pub const XRD: u8 = 0xB1;

pub const KEYPAD: u8 = 0x53;

pub const COMSET: u8 = 0x6E;

pub const COM: u8 = 0x54;

pub const PDID: u8 = 0x45;

pub const LSTATR: u8 = 0x48;

pub const ACURXSIZE: u8 = 0x7B;

pub const KEEPACTIVE: u8 = 0xA7;

pub const LED_BYTES: usize = 14;

pub const OUT_BYTES: usize = 4;

// From this argument on, strict refuses the payload to the first generation for the colour at the place that is the argument less this.
const NEW_COLOR: usize = 3;

#[derive(Clone, Copy, Debug, PartialEq, Eq)]
pub struct Case<'a> {
    pub code: u8,
    pub argument: usize,
    pub input: &'a [u8],
    // the wanted answer, a pass or a refusal, and the wanted output
    pub wanted: Result<(), Refusal>,
    pub want: &'a [u8],
    // how it is tried: the room that a writer is given, and the byte that fills the whole buffer before
    pub room: usize,
    pub fill: u8,
}

impl<'a> Case<'a> {
    // Whether e is the wanted refusal.
    pub fn refuses(self, e: Refusal) -> bool
        ensures { (result ≡ true) ↔ (Err e ≡ self.entry.wanted) }
    {
        self.guards(Err(e))
    }

    // Whether g is the wanted answer.
    pub fn guards(self, g: Result<(), Refusal>) -> bool
        ensures { (result ≡ true) ↔ (g ≡ self.entry.wanted) }
    {
        g == self.wanted
    }

    // What strict has to answer for the first generation, where the wanted answer is the second's.
    pub fn wanted_of_first(self) -> Result<(), Refusal>
        ensures { result ≡ wanted_of_first self.entry }
    {
        if self.argument < NEW_COLOR {
            return self.wanted;
        }
        let place = self.argument - NEW_COLOR;
        Err(Refusal::with_values(
            Row::SecondGenerationColor,
            self.code,
            place,
            byte(self.input, place) as usize,
        ))
    }

    // Fills the whole buffer with the case's byte. False if it is shorter than the case's room.
    #[tactic(auto, unfolding(crate::specs::Buffer::putting))]
    fn fill_up(self, out: &mut [u8]) -> bool
        ensures fits { (result ≡ true) ↔ self.entry.room ≤ length out.old }
        ensures filled { (result ≡ true) → out.new ≡ replicate (length out.old) self.entry.fill }
    {
        let n = out.len();
        self.room <= n && put(out, 0, n, self.fill)
    }

    // Fills the whole buffer up and lends its room to the call. None if the buffer is shorter than the room.
    pub fn lend_room<R, F: FnOnce(&mut [u8]) -> R>(self, out: &mut [u8], call: F) -> Option<R>
        requires callable { F.IsAlwaysCallable call }
        ensures called { IfSome result (λ r.
            FnOnceReturnsAtMut F.FnOnce call (replicate self.entry.room self.entry.fill) r (take self.entry.room out.new)) }
        ensures behind { IfSome result (λ r. AllFrom out.new self.entry.room self.entry.fill) }
    {
        if !self.fill_up(&mut *out) {
            return None;
        }
        Some(call(&mut out[..self.room]))
    }

    // Whether a writer's answer and every byte of a buffer are the wanted ones, after the writer was given only its room. False if it was asked
    // for nothing that can be written.
    pub fn writes_wanted<F: FnOnce(&mut [u8]) -> Option<Result<usize, Refusal>>>(
        self,
        out: &mut [u8],
        call: F,
    ) -> bool
        requires callable { F.IsAlwaysCallable call }
        ensures called { (result ≡ true) → (written : Outcome ℕ) × Tried self.entry written out.new
            × FnOnceReturnsAtMut F.FnOnce call (replicate self.entry.room self.entry.fill) (Some written) (take self.entry.room out.new) }
    {
        // by `match`: with `is_some_and` the search does not prove the clause
        match self.lend_room(&mut *out, call).flatten() {
            Some(written) => self.wrote(written, out),
            None => false,
        }
    }

    // Whether the answer and every byte of a buffer are the wanted ones, after a writer was given only its room.
    pub fn wrote(self, written: Result<usize, Refusal>, out: &[u8]) -> bool
        ensures { (result ≡ true) ↔ Tried self.entry written out.now }
    {
        let room = self.room;
        room <= out.len() && self.in_room(written, &out[..room]) && filled(out, room, self.fill)
    }

    // Whether the answer and every byte of the room are the wanted ones.
    #[tactic(auto, using(crate::proofs::Writes::effect_answer, crate::proofs::Writes::effect_wrote))]
    fn in_room(self, written: Result<usize, Refusal>, out: &[u8]) -> bool
        ensures { (result ≡ true) ↔ ((written, out.now) ≡ wanted_effect self.entry (length out.now)) }
    {
        if !self.is_answer(written, out.len()) {
            return false;
        }
        match written {
            Ok(_) => self.holds(out, 0),
            Err(_) => filled(out, 0, self.fill),
        }
    }

    // Whether the answer is the wanted one of a writer that is given room for so many bytes.
    fn is_answer(self, written: Result<usize, Refusal>, given: usize) -> bool
        ensures { (result ≡ true) ↔ (written ≡ wanted_answer self.entry given) }
    {
        written == self.answer(given)
    }

    // The wanted answer of a writer that is given room for so many bytes.
    #[tactic(auto, unfolding(payload_util::specs::Guards::room))]
    fn answer(self, given: usize) -> Result<usize, Refusal>
        ensures { result ≡ wanted_answer self.entry given }
    {
        let n = self.want.len();
        self.wanted?;
        if given < n {
            return Err(Refusal::with_values(Row::BufferTooShort, self.code, n, given));
        }
        Ok(n)
    }

    // Whether a buffer has the wanted bytes from an index on, and the fill byte everywhere else.
    #[tactic(auto, using(crate::proofs::Buffers::around_parts))]
    pub fn holds(self, out: &[u8], at: usize) -> bool
        ensures { (result ≡ true) ↔ (out.now ≡ around at self.entry.want.now (length out.now) self.entry.fill) }
    {
        let n = self.want.len();
        if out.len() < n || out.len() - n < at {
            return false;
        }
        let end = at + n;
        if !same(&out[at..end], self.want) || !filled(&out[..at], 0, self.fill) {
            return false;
        }
        filled(out, end, self.fill)
    }
}

// The row with a number of the stream. By hand, since the library's numbers are what is tested.
fn row_of(number: u8) -> Option<Row>
    ensures { (r : Row) → (result ≡ Some r) ↔ (number_of r ≡ number) }
{
    match number {
        1 => Some(Row::UnknownCommand),
        2 => Some(Row::UnknownReply),
        3 => Some(Row::PayloadLength),
        4 => Some(Row::PayloadTooShort),
        5 => Some(Row::PayloadNotMultiple),
        6 => Some(Row::DeclaredLength),
        7 => Some(Row::UnknownOutputCode),
        8 => Some(Row::UnprintableText),
        9 => Some(Row::UnknownTextCommand),
        10 => Some(Row::UnknownNakError),
        11 => Some(Row::EmptyList),
        12 => Some(Row::TailTooLong),
        13 => Some(Row::TailLength),
        14 => Some(Row::NotCarried),
        15 => Some(Row::BufferTooShort),
        16 => Some(Row::NoSuchRecord),
        17 => Some(Row::Folded),
        18 => Some(Row::SecondGenerationColor),
        20 => Some(Row::NotAFrame),
        21 => Some(Row::WrongCheck),
        22 => Some(Row::FrameTooLong),
        28 => Some(Row::PayloadTooLong),
        _ => None,
    }
}

// The wanted answer by the numbers of the stream: a pass for row 0, and none for a number of no row.
pub fn wanted(row: u8, code: u8, first: usize, second: usize) -> Option<Result<(), Refusal>>
    ensures { (g : Guard) → (result ≡ Some g) ↔ IsWanted row code first second g }
{
    if row == 0 {
        return Some(Ok(()));
    }
    let row = row_of(row)?;
    Some(Err(Refusal::with_values(row, code, first, second)))
}

// Puts b at every index from one up to another. False if the slice is too short.
#[tactic(auto, unfolding(crate::specs::Buffer::putting))]
pub fn put(into: &mut [u8], from: usize, to: usize, b: u8) -> bool
    ensures { (result, into.new) ≡ putting from to b into.old }
{
    if into.len() < to {
        return false;
    }
    if from < to {
        into[from..to].fill(b);
    }
    true
}

// Whether the bytes are the same.
#[tactic(auto, using(crate::proofs::Buffers::bytes_same))]
fn same(a: &[u8], b: &[u8]) -> bool
    ensures { (result ≡ true) ↔ (a.now ≡ b.now) }
{
    a == b
}

// Whether every byte from an index on is b.
pub fn filled(s: &[u8], from: usize, b: u8) -> bool
    ensures { (result ≡ true) ↔ AllFrom s.now from b }
{
    s.len() <= from || s[from..].iter().all(|x| *x == b)
}

// Fields of records made by hand, and numbers taken apart. The library's own functions for numbers are not used, since they are what is tested.

// The byte at an index, or 0.
pub fn byte(s: &[u8], at: usize) -> u8
    ensures { result ≡ byte_at s.now at }
{
    s.get(at).copied().unwrap_or(0)
}

// The numbers of two and of four bytes from an offset on, low byte first.
pub fn u16_at(s: &[u8], offset: usize) -> u16
    ensures { result ≡ u16_at s.now offset }
{
    if s.len() <= offset {
        return 0;
    }
    u16::from_le_bytes([byte(s, offset), byte(s, offset + 1)])
}

pub fn u32_at(s: &[u8], offset: usize) -> u32
    ensures { result ≡ u32_at s.now offset }
{
    if s.len() <= offset {
        return 0;
    }
    u32::from_le_bytes([
        byte(s, offset),
        byte(s, offset + 1),
        byte(s, offset + 2),
        byte(s, offset + 3),
    ])
}

// The bytes of a number, low byte first.
pub fn u16_bytes(n: u16) -> [u8; 2]
    ensures { result ≡ u16_bytes n }
{
    n.to_le_bytes()
}

pub fn u32_bytes(n: u32) -> [u8; 4]
    ensures { result ≡ u32_bytes n }
{
    n.to_le_bytes()
}
