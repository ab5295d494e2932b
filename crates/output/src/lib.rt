// osdp_OUT (0x68), output control: a list of records, one for each output to drive.
#![tactic(auto)]

ghost use Rattle.std.specs.Prelude.{true, ◌≡◌, ◌∷◌, [], ◌≤◌, length, drop, refl};
ghost use Rattle.std.proofs.Common.{lit<};
ghost use Rattle.payload_util.specs.Prelude.{Pass, code, fields};
ghost use Rattle.payload_util.specs.Form.{bytes};
ghost use Rattle.lists.specs.List.{put_at};
ghost use Rattle.output.specs.Output.{output_byte, read_output_code, code_in_place, codes_known, out_of, out_with, read_out_at, output_row, outputs};

use lists::{ListRecord, put_at};
use payload_util::{
    Payload, Refusal, Row, byte_at, put_payload, require, require_at_least,
    require_positive_multiple_of, tail_from, u16_at,
};

// Table 14.
#[derive(Clone, Copy, Debug, PartialEq, Eq)]
pub enum OutputControlCode {
    Nop = 0x00,
    PermanentOffAbortTimed = 0x01,
    PermanentOnAbortTimed = 0x02,
    PermanentOffAllowTimed = 0x03,
    PermanentOnAllowTimed = 0x04,
    TemporaryOnResume = 0x05,
    TemporaryOffResume = 0x06,
}

impl OutputControlCode {
    const HIGHEST: u8 = OutputControlCode::TemporaryOffResume as u8;

    // By its name in the Rust, with no `TryFrom` beside it. Row 7 if no code has this byte.
    #[tactic(auto, unfolding(crate::specs::Output::read_output_code))]
    pub fn from_byte(b: u8) -> Result<OutputControlCode, Refusal>
        ensures { result ≡ read_output_code b }
    {
        match b {
            0x00 => Ok(OutputControlCode::Nop),
            0x01 => Ok(OutputControlCode::PermanentOffAbortTimed),
            0x02 => Ok(OutputControlCode::PermanentOnAbortTimed),
            0x03 => Ok(OutputControlCode::PermanentOffAllowTimed),
            0x04 => Ok(OutputControlCode::PermanentOnAllowTimed),
            0x05 => Ok(OutputControlCode::TemporaryOnResume),
            0x06 => Ok(OutputControlCode::TemporaryOffResume),
            _ => Err(Refusal::new(Row::UnknownOutputCode, OutputRecord::CODE)),
        }
    }

    pub fn as_byte(self) -> u8
        ensures { result ≡ output_byte self }
    {
        self as u8
    }
}

// One output: its number, what it is to do, and for how long, in units of 100 ms.
#[derive(Clone, Copy, Debug, PartialEq, Eq)]
pub struct OutputRecord {
    pub output: u8,
    pub code: OutputControlCode,
    pub timer: u16,
}

impl Payload for OutputRecord {
    const CODE: u8 = 0x68;

    ghost form = { outputs };

    // Checks the whole list: one unknown code refuses it.
    #[tactic(auto, using(payload_util::proofs::Guards::passed, payload_util::proofs::Guards::stopped, payload_util::proofs::Guards::skipped))]
    fn check(p: &[u8]) -> Result<(), Refusal> {
        require_positive_multiple_of(p, Self::WIRE_LEN, Self::CODE)?;
        Self::check_codes(p)
    }

    fn put_kept(p: &[u8], out: &mut [u8]) -> Result<usize, Refusal> {
        put_payload(p, Self::CODE, out)
    }

    #[tactic(auto, using(crate::proofs::Laws::out_law))]
    fn keeps_law() {}
}

impl ListRecord for OutputRecord {
    const WIRE_LEN: usize = 4;

    ghost WIRE_LEN = { 4 };

    ghost list_row = { output_row };

    ghost same_width = { refl };

    ghost same_code = { refl };

    ghost same_check = { λ p. refl };

    ghost some_bytes = { lit< tt };

    ghost all_bytes = { λ r. refl };

    fn code() -> u8 {
        Self::CODE
    }

    // The codes of a list that passed its checks are known; an unknown one would give Nop.
    fn fields(p: &[u8]) -> OutputRecord
        ensures { result ≡ fields outputs p.now }
    {
        let code = OutputControlCode::from_byte(byte_at(p, 1));
        Self::with_code(p, code.unwrap_or(OutputControlCode::Nop))
    }

    fn encode_at(self, out: &mut [u8], offset: usize) -> Result<usize, Refusal>
        ensures { (result, out.new) ≡ put_at (code outputs) offset (bytes outputs (self ∷ [])) out.old }
    {
        let timer = self.timer.to_le_bytes();
        let bytes = [self.output, self.code.as_byte(), timer[0], timer[1]];
        put_at(&bytes, Self::CODE, out, offset)
    }
}

impl OutputRecord {
    // The record at the start of a buffer, with a code that was read already.
    fn with_code(p: &[u8], code: OutputControlCode) -> OutputRecord
        ensures { result ≡ out_with code p.now }
    {
        OutputRecord {
            output: byte_at(p, 0),
            code,
            timer: u16_at(p, 2),
        }
    }

    // The record whose bytes start at any offset: row 4 if fewer than 4 bytes are left from there, then row 7.
    #[tactic(auto, using(payload_util::proofs::Guards::passed, payload_util::proofs::Guards::least_pass))]
    pub fn decode_at(p: &[u8], offset: usize) -> Result<OutputRecord, Refusal>
        ensures { result ≡ read_out_at (drop offset p.now) }
    {
        let part = tail_from(p, offset);
        require_at_least(part, Self::WIRE_LEN, Self::CODE)?;
        Ok(Self::with_code(part, OutputControlCode::from_byte(part[1])?))
    }

    // Says yes only if these are four records whose codes are known. Four at a time, since one at a time misses a bar of the bench.
    #[tactic(auto, using(crate::proofs::Laws::four_pass))]
    fn four_known(p: &[u8]) -> bool
        ensures { result ≡ true → codes_known p.now ≡ Pass }
    {
        if p.len() != 4 * Self::WIRE_LEN {
            return false;
        }
        if OutputControlCode::HIGHEST < p[1] {
            return false;
        }
        if OutputControlCode::HIGHEST < p[5] {
            return false;
        }
        if OutputControlCode::HIGHEST < p[9] {
            return false;
        }
        p[13] <= OutputControlCode::HIGHEST
    }

    // Checks the codes of at most four records, in order.
    fn check_few(p: &[u8]) -> Result<(), Refusal>
        ensures { result ≡ codes_known p.now }
    {
        if Self::four_known(p) {
            return Ok(());
        }
        for record in p.chunks_exact(Self::WIRE_LEN) {
            OutputControlCode::from_byte(record[1])?;
        }
        Ok(())
    }

    // The code of a record, where it is in the record as a number.
    fn code_in_place(r: &[u8; 4]) -> u32
        ensures { result ≡ code_in_place r.now }
    {
        u32::from_le_bytes(*r) & 0xFF00
    }

    // Checks the codes of all records by the highest: row 7 names no record. With no way out of the loop the compiler takes eight records a turn.
    fn check_highest(p: &[u8]) -> Result<(), Refusal>
        ensures { result ≡ codes_known p.now }
    {
        let (records, _) = p.as_chunks::<4>();
        let highest = records
            .iter()
            .fold(0, |most, r| most.max(Self::code_in_place(r)));
        require(
            highest <= (OutputControlCode::HIGHEST as u32) << 8,
            Refusal::new(Row::UnknownOutputCode, Self::CODE),
        )
    }

    // Checks the codes of all records.
    fn check_codes(p: &[u8]) -> Result<(), Refusal>
        ensures { result ≡ codes_known p.now }
    {
        if p.len() <= 4 * Self::WIRE_LEN {
            return Self::check_few(p);
        }
        Self::check_highest(p)
    }
}
