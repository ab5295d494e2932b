// osdp_NAK (0x41), the reply to a command that was not accepted: an error, and with one of the errors completion codes.
#![tactic(auto)]

ghost use Rattle.std.specs.Prelude.{◌≡◌};
ghost use Rattle.payload_util.specs.Prelude.{without, loss, fields, tail, write};
ghost use Rattle.nak.specs.Nak.{nak_error_byte, read_nak_error, nak};

use payload_util::{
    Payload, Record, Refusal, Row, byte_at, put_bytes, put_payload, require_at_least, tail_where,
};

// NAK error code (Table 47).
#[derive(Clone, Copy, Debug, PartialEq, Eq)]
pub enum NakErrorCode {
    NoError = 0x00,
    BadCrcOrChecksum = 0x01,
    CommandLengthError = 0x02,
    UnknownCommandCode = 0x03,
    UnexpectedSequenceNumber = 0x04,
    SecurityBlockTypeNotSupported = 0x05,
    EncryptedCommunicationRequired = 0x06,
    BioTypeNotSupported = 0x07,
    BioFormatNotSupported = 0x08,
    UnableToProcessCommandRecord = 0x09,
}

impl NakErrorCode {
    // By its name in the Rust, with no `TryFrom` beside it. Row 10 if no error has this byte.
    #[tactic(auto, unfolding(crate::specs::Nak::read_nak_error))]
    pub fn from_byte(b: u8) -> Result<Self, Refusal>
        ensures { result ≡ read_nak_error b }
    {
        match b {
            0x00 => Ok(NakErrorCode::NoError),
            0x01 => Ok(NakErrorCode::BadCrcOrChecksum),
            0x02 => Ok(NakErrorCode::CommandLengthError),
            0x03 => Ok(NakErrorCode::UnknownCommandCode),
            0x04 => Ok(NakErrorCode::UnexpectedSequenceNumber),
            0x05 => Ok(NakErrorCode::SecurityBlockTypeNotSupported),
            0x06 => Ok(NakErrorCode::EncryptedCommunicationRequired),
            0x07 => Ok(NakErrorCode::BioTypeNotSupported),
            0x08 => Ok(NakErrorCode::BioFormatNotSupported),
            0x09 => Ok(NakErrorCode::UnableToProcessCommandRecord),
            _ => Err(Refusal::new(Row::UnknownNakError, Nak::CODE)),
        }
    }

    pub fn as_byte(self) -> u8
        ensures { result ≡ nak_error_byte self }
    {
        self as u8
    }
}

// The fixed field: the error. Completion codes, one for each record of the command, are the tail.
#[derive(Clone, Copy, Debug, PartialEq, Eq)]
pub struct Nak {
    pub error: NakErrorCode,
}

impl Payload for Nak {
    const CODE: u8 = 0x41;

    ghost form = { nak };

    #[tactic(auto, using(payload_util::proofs::Guards::least_pass))]
    fn check(p: &[u8]) -> Result<(), Refusal> {
        require_at_least(p, Self::WIRE_LEN, Self::CODE)?;
        NakErrorCode::from_byte(p[0])?;
        Ok(())
    }

    fn put_kept(p: &[u8], out: &mut [u8]) -> Result<usize, Refusal> {
        put_payload(Self::kept(p), Self::CODE, out)
    }

    #[tactic(auto, using(crate::proofs::Laws::nak_law))]
    fn keeps_law() {}
}

impl Record for Nak {
    ghost fields = { fields nak };

    fn fields(p: &[u8]) -> Nak {
        let error = NakErrorCode::from_byte(byte_at(p, 0));
        Nak {
            error: error.unwrap_or(NakErrorCode::NoError),
        }
    }
}

impl Nak {
    pub const WIRE_LEN: usize = 1;

    // A NAK to be written without completion codes.
    pub fn simple(err: NakErrorCode) -> Nak
        ensures { result ≡ record { error = err } }
    {
        Nak { error: err }
    }

    // What reading keeps of an accepted payload: all of it if the error is the one with completion codes, else the error alone.
    fn kept(p: &[u8]) -> &[u8]
        ensures { result.now ≡ without (loss nak) p.now }
    {
        if p.is_empty() || p[0] == NakErrorCode::UnableToProcessCommandRecord.as_byte() {
            return p;
        }
        &p[0..1]
    }

    // The completion codes; empty if the error is not the one with completion codes, and if reading refuses.
    pub fn completion_codes(p: &[u8]) -> &[u8]
        ensures { result.now ≡ tail nak p.now }
    {
        tail_where(Self::check(p), Self::kept(p), Self::WIRE_LEN)
    }

    // Completion codes are written with every error.
    pub fn encode(self, completion_codes: &[u8], out: &mut [u8]) -> Result<usize, Refusal>
        ensures { (result, out.new) ≡ write nak self completion_codes.now out.old }
    {
        put_bytes(&[self.error.as_byte()], completion_codes, Self::CODE, out)
    }
}
