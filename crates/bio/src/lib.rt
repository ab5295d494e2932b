// osdp_BIOREADR (0x57), the biometric sample that was taken, and osdp_BIOMATCHR (0x58), the outcome of a match.
#![tactic(auto)]

ghost use Rattle.std.specs.Prelude.{◌≡◌};
ghost use Rattle.payload_util.specs.Prelude.{fields, tail, write};
ghost use Rattle.bio.specs.Bio.{bio_read_r, bio_match_r};

use biometric::BioHead;
use payload_util::{Payload, Record, Refusal, byte_at, put_payload, require_exact_len, tail_where};

// osdp_BIOREADR: the sample's type, format and quality. The sample is the tail; the layout is that of BIOMATCH.
#[derive(Clone, Copy, Debug, PartialEq, Eq)]
pub struct BioReadR {
    pub head: BioHead,
}

impl Payload for BioReadR {
    const CODE: u8 = 0x57;

    ghost form = { bio_read_r };

    fn check(p: &[u8]) -> Result<(), Refusal> {
        BioHead::check_template(p, Self::CODE)
    }

    fn put_kept(p: &[u8], out: &mut [u8]) -> Result<usize, Refusal> {
        BioHead::put_folded(p, Self::CODE, out)
    }

    #[tactic(auto, using(crate::proofs::Laws::bio_read_r_law))]
    fn keeps_law() {}
}

impl Record for BioReadR {
    ghost fields = { fields bio_read_r };

    fn fields(p: &[u8]) -> BioReadR {
        BioReadR {
            head: BioHead::fields(p),
        }
    }
}

impl BioReadR {
    pub const WIRE_LEN: usize = BioHead::TEMPLATE_AT;

    // The sample, a template or raw; empty if reading refuses.
    pub fn data(p: &[u8]) -> &[u8]
        ensures { result.now ≡ tail bio_read_r p.now }
    {
        tail_where(Self::check(p), p, Self::WIRE_LEN)
    }

    pub fn encode(self, sample: &[u8], out: &mut [u8]) -> Result<usize, Refusal>
        ensures { (result, out.new) ≡ write bio_read_r self sample.now out.old }
    {
        self.head.encode_template(sample, Self::CODE, out)
    }
}

// osdp_BIOMATCHR: result 0 is no match, 1 a match; any byte is accepted.
#[derive(Clone, Copy, Debug, PartialEq, Eq)]
pub struct BioMatchR {
    pub reader: u8,
    pub result: u8,
    pub score: u8,
}

impl Payload for BioMatchR {
    const CODE: u8 = 0x58;

    ghost form = { bio_match_r };

    fn check(p: &[u8]) -> Result<(), Refusal> {
        require_exact_len(p, Self::WIRE_LEN, Self::CODE)
    }

    fn put_kept(p: &[u8], out: &mut [u8]) -> Result<usize, Refusal> {
        put_payload(p, Self::CODE, out)
    }

    #[tactic(auto, using(crate::proofs::Laws::bio_match_r_law))]
    fn keeps_law() {}
}

impl Record for BioMatchR {
    ghost fields = { fields bio_match_r };

    fn fields(p: &[u8]) -> BioMatchR {
        BioMatchR {
            reader: byte_at(p, 0),
            result: byte_at(p, 1),
            score: byte_at(p, 2),
        }
    }
}

impl BioMatchR {
    pub const WIRE_LEN: usize = 3;

    pub fn encode(self, out: &mut [u8]) -> Result<usize, Refusal>
        ensures { (result, out.new) ≡ write bio_match_r self out.old }
    {
        put_payload(&[self.reader, self.result, self.score], Self::CODE, out)
    }
}
