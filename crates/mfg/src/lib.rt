// osdp_MFG (0x80), manufacturer-specific command: the vendor's OUI, and data that only the vendor reads.
#![tactic(auto)]

ghost use Rattle.std.specs.Prelude.{◌≡◌};
ghost use Rattle.payload_util.specs.Prelude.{fields, tail, write};
ghost use Rattle.mfg.specs.Mfg.{mfg};

use payload_util::{
    Payload, Record, Refusal, byte_at, put_bytes, put_payload, require_at_least, tail_where,
};

// The fixed fields: the vendor's OUI. The vendor's data is the tail.
#[derive(Clone, Copy, Debug, PartialEq, Eq)]
pub struct Mfg {
    pub oui_0: u8,
    pub oui_1: u8,
    pub oui_2: u8,
}

impl Payload for Mfg {
    const CODE: u8 = 0x80;

    ghost form = { mfg };

    fn check(p: &[u8]) -> Result<(), Refusal> {
        require_at_least(p, Self::WIRE_LEN, Self::CODE)
    }

    fn put_kept(p: &[u8], out: &mut [u8]) -> Result<usize, Refusal> {
        put_payload(p, Self::CODE, out)
    }

    #[tactic(auto, using(crate::proofs::Laws::mfg_law))]
    fn keeps_law() {}
}

impl Record for Mfg {
    ghost fields = { fields mfg };

    fn fields(p: &[u8]) -> Mfg {
        Mfg {
            oui_0: byte_at(p, 0),
            oui_1: byte_at(p, 1),
            oui_2: byte_at(p, 2),
        }
    }
}

impl Mfg {
    pub const WIRE_LEN: usize = 3;

    // The vendor's data; empty if reading refuses.
    pub fn payload(p: &[u8]) -> &[u8]
        ensures { result.now ≡ tail mfg p.now }
    {
        tail_where(Self::check(p), p, Self::WIRE_LEN)
    }

    pub fn encode(self, payload: &[u8], out: &mut [u8]) -> Result<usize, Refusal>
        ensures { (result, out.new) ≡ write mfg self payload.now out.old }
    {
        put_bytes(
            &[self.oui_0, self.oui_1, self.oui_2],
            payload,
            Self::CODE,
            out,
        )
    }
}
