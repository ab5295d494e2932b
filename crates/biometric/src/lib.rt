// osdp_BIOREAD (0x73), take a biometric sample, and osdp_BIOMATCH (0x74), match a sample with a template.
#![tactic(auto)]

ghost use Rattle.std.specs.Prelude.{◌≡◌, ◌≤◌, length};
ghost use Rattle.payload_util.specs.Prelude.{put, without, within_limits, fields, tail, write};
ghost use Rattle.payload_util.specs.declared.Row.TheVariants.{Folded};
ghost use Rattle.biometric.specs.Biometric.{bio_type_byte, bio_type_of, bio_format_byte, bio_format_of};
ghost use Rattle.biometric.specs.Biometric.{head_of, head_bytes, bio_loss, check_template, headed, bio_read, bio_match};

use payload_util::{
    Payload, Record, Refusal, Row, byte_at, fold_at, put_bytes, put_payload, require_at_most,
    require_exact_len, require_head_and_tail, require_limit, tail_where, u16_at,
};

// Biometric type code (Table 24).
#[derive(Clone, Copy, Debug, PartialEq, Eq)]
pub enum BioType {
    NotSpecified = 0x00,
    RightThumb = 0x01,
    RightIndex = 0x02,
    RightMiddle = 0x03,
    RightRing = 0x04,
    RightLittle = 0x05,
    LeftThumb = 0x06,
    LeftIndex = 0x07,
    LeftMiddle = 0x08,
    LeftRing = 0x09,
    LeftLittle = 0x0A,
    RightIris = 0x0B,
    RightRetina = 0x0C,
    LeftIris = 0x0D,
    LeftRetina = 0x0E,
    Face = 0x0F,
    RightHandGeometry = 0x10,
    LeftHandGeometry = 0x11,
}

impl BioType {
    const HIGHEST: u8 = BioType::LeftHandGeometry as u8;

    // By its name in the Rust, with no `From` beside it. Any other byte becomes NotSpecified.
    #[tactic(auto, unfolding(crate::specs::Biometric::bio_type_of))]
    pub fn from_byte(b: u8) -> BioType
        ensures { result ≡ bio_type_of b }
    {
        match b {
            0x00 => BioType::NotSpecified,
            0x01 => BioType::RightThumb,
            0x02 => BioType::RightIndex,
            0x03 => BioType::RightMiddle,
            0x04 => BioType::RightRing,
            0x05 => BioType::RightLittle,
            0x06 => BioType::LeftThumb,
            0x07 => BioType::LeftIndex,
            0x08 => BioType::LeftMiddle,
            0x09 => BioType::LeftRing,
            0x0A => BioType::LeftLittle,
            0x0B => BioType::RightIris,
            0x0C => BioType::RightRetina,
            0x0D => BioType::LeftIris,
            0x0E => BioType::LeftRetina,
            0x0F => BioType::Face,
            0x10 => BioType::RightHandGeometry,
            0x11 => BioType::LeftHandGeometry,
            _ => BioType::NotSpecified,
        }
    }

    pub fn as_byte(self) -> u8
        ensures { result ≡ bio_type_byte self }
    {
        self as u8
    }
}

// Biometric data format (Table 25).
#[derive(Clone, Copy, Debug, PartialEq, Eq)]
pub enum BioFormat {
    NotSpecified = 0x00,
    FingerprintRawPgm = 0x01,
    FingerprintAnsi378 = 0x02,
}

impl BioFormat {
    const HIGHEST: u8 = BioFormat::FingerprintAnsi378 as u8;

    // By its name in the Rust, with no `From` beside it. Any other byte becomes NotSpecified.
    #[tactic(auto, unfolding(crate::specs::Biometric::bio_format_of))]
    pub fn from_byte(b: u8) -> BioFormat
        ensures { result ≡ bio_format_of b }
    {
        match b {
            0x00 => BioFormat::NotSpecified,
            0x01 => BioFormat::FingerprintRawPgm,
            0x02 => BioFormat::FingerprintAnsi378,
            _ => BioFormat::NotSpecified,
        }
    }

    pub fn as_byte(self) -> u8
        ensures { result ≡ bio_format_byte self }
    {
        self as u8
    }
}

// What BIOREAD, BIOMATCH and BIOREADR begin with.
#[derive(Clone, Copy, Debug, PartialEq, Eq)]
pub struct BioHead {
    pub reader: u8,
    pub bio_type: BioType,
    pub bio_format: BioFormat,
    pub quality: u8,
}

impl BioHead {
    pub const WIRE_LEN: usize = 4;

    // Where a template starts: after the head and the length field.
    pub const TEMPLATE_AT: usize = 6;

    const TEMPLATE_MAX: usize = 65535;

    pub fn new(reader: u8, bio_type: BioType, bio_format: BioFormat, quality: u8) -> BioHead
        ensures { result ≡ record { reader = reader; bio_type = bio_type; bio_format = bio_format; quality = quality } }
    {
        BioHead {
            reader,
            bio_type,
            bio_format,
            quality,
        }
    }

    pub fn fields(p: &[u8]) -> BioHead
        ensures { result ≡ head_of p.now }
    {
        BioHead::new(
            byte_at(p, 0),
            BioType::from_byte(byte_at(p, 1)),
            BioFormat::from_byte(byte_at(p, 2)),
            byte_at(p, 3),
        )
    }

    fn bytes(self) -> [u8; 4]
        ensures { result ≡ head_bytes self }
    {
        [
            self.reader,
            self.bio_type.as_byte(),
            self.bio_format.as_byte(),
            self.quality,
        ]
    }

    // Writes a payload as it came, and then folds its type and format.
    pub fn put_folded(p: &[u8], code: u8, out: &mut [u8]) -> Result<usize, Refusal>
        ensures { (result, out.new) ≡ put code (without bio_loss p.now) out.old }
    {
        let n = put_payload(p, code, out)?;
        let written = &mut out[..n];
        fold_at(&mut *written, 1, BioType::HIGHEST);
        fold_at(written, 2, BioFormat::HIGHEST);
        Ok(n)
    }

    // Row 17 for the first of type and format that reading would fold.
    #[tactic(auto, using(crate::proofs::Laws::head_limits))]
    pub fn within_limits(p: &[u8], code: u8) -> Result<(), Refusal>
        ensures { result ≡ within_limits Folded code bio_loss p.now }
    {
        require_limit(p, 1, BioType::HIGHEST, Row::Folded, code)?;
        require_limit(p, 2, BioFormat::HIGHEST, Row::Folded, code)
    }

    // What BIOMATCH and BIOREADR share, a head with a template: each gives its own code.
    #[tactic(auto, unfolding(crate::specs::Biometric::check_template))]
    pub fn check_template(p: &[u8], code: u8) -> Result<(), Refusal>
        ensures { result ≡ check_template code p.now }
    {
        require_head_and_tail(p, Self::TEMPLATE_AT, u16_at(p, 4), code)
    }

    #[tactic(auto, using(payload_util::proofs::Guards::most_pass))]
    pub fn encode_template(
        self,
        template: &[u8],
        code: u8,
        out: &mut [u8],
    ) -> Result<usize, Refusal>
        ensures { (result, out.new) ≡ write (headed code) self template.now out.old }
    {
        require_at_most(template, Self::TEMPLATE_MAX, code)?;
        let len = (template.len() as u16).to_le_bytes();
        let b = self.bytes();
        put_bytes(
            &[b[0], b[1], b[2], b[3], len[0], len[1]],
            template,
            code,
            out,
        )
    }
}

// osdp_BIOREAD: the sample to take, and the format to answer in.
#[derive(Clone, Copy, Debug, PartialEq, Eq)]
pub struct BioRead {
    pub head: BioHead,
}

impl Payload for BioRead {
    const CODE: u8 = 0x73;

    ghost form = { bio_read };

    fn check(p: &[u8]) -> Result<(), Refusal> {
        require_exact_len(p, Self::WIRE_LEN, Self::CODE)
    }

    fn put_kept(p: &[u8], out: &mut [u8]) -> Result<usize, Refusal> {
        BioHead::put_folded(p, Self::CODE, out)
    }

    #[tactic(auto, using(crate::proofs::Laws::bio_read_law))]
    fn keeps_law() {}
}

impl Record for BioRead {
    ghost fields = { fields bio_read };

    fn fields(p: &[u8]) -> BioRead {
        BioRead {
            head: BioHead::fields(p),
        }
    }
}

impl BioRead {
    pub const WIRE_LEN: usize = BioHead::WIRE_LEN;

    pub fn encode(self, out: &mut [u8]) -> Result<usize, Refusal>
        ensures { (result, out.new) ≡ write bio_read self out.old }
    {
        put_payload(&self.head.bytes(), Self::CODE, out)
    }
}

// osdp_BIOMATCH: the sample to take, and the quality of a match. The template is the tail. A struct of its own beside BIOREADR's, since a pattern
// of a `match` in another crate cannot name the constant of an `impl` for every code byte.
#[derive(Clone, Copy, Debug, PartialEq, Eq)]
pub struct BioMatch {
    pub head: BioHead,
}

impl Payload for BioMatch {
    const CODE: u8 = 0x74;

    ghost form = { bio_match };

    fn check(p: &[u8]) -> Result<(), Refusal> {
        BioHead::check_template(p, Self::CODE)
    }

    fn put_kept(p: &[u8], out: &mut [u8]) -> Result<usize, Refusal> {
        BioHead::put_folded(p, Self::CODE, out)
    }

    #[tactic(auto, using(crate::proofs::Laws::bio_match_law))]
    fn keeps_law() {}
}

impl Record for BioMatch {
    ghost fields = { fields bio_match };

    fn fields(p: &[u8]) -> BioMatch {
        BioMatch {
            head: BioHead::fields(p),
        }
    }
}

impl BioMatch {
    pub const WIRE_LEN: usize = BioHead::TEMPLATE_AT;

    // The template; empty if reading refuses.
    pub fn template(p: &[u8]) -> &[u8]
        ensures { result.now ≡ tail bio_match p.now }
    {
        tail_where(Self::check(p), p, Self::WIRE_LEN)
    }

    pub fn encode(self, template: &[u8], out: &mut [u8]) -> Result<usize, Refusal>
        ensures { (result, out.new) ≡ write bio_match self template.now out.old }
    {
        self.head.encode_template(template, Self::CODE, out)
    }
}
