// osdp_XRD (0xB1), extended-read reply: the mode of the request, and data of that mode.
#![tactic(auto)]

ghost use Rattle.std.specs.Prelude.{◌≡◌};
ghost use Rattle.payload_util.specs.Prelude.{fields, tail, write};
ghost use Rattle.xrd.specs.Xrd.{xrd};

use payload_util::{
    Payload, Record, Refusal, byte_at, put_bytes, put_payload, require_at_least, tail_where,
};

// The fixed field: XRW_MODE. The mode's reply is the tail.
#[derive(Clone, Copy, Debug, PartialEq, Eq)]
pub struct Xrd {
    pub mode: u8,
}

impl Payload for Xrd {
    const CODE: u8 = 0xB1;

    ghost form = { xrd };

    fn check(p: &[u8]) -> Result<(), Refusal> {
        require_at_least(p, Self::WIRE_LEN, Self::CODE)
    }

    fn put_kept(p: &[u8], out: &mut [u8]) -> Result<usize, Refusal> {
        put_payload(p, Self::CODE, out)
    }

    #[tactic(auto, using(crate::proofs::Laws::xrd_law))]
    fn keeps_law() {}
}

impl Record for Xrd {
    ghost fields = { fields xrd };

    fn fields(p: &[u8]) -> Xrd {
        Xrd {
            mode: byte_at(p, 0),
        }
    }
}

impl Xrd {
    pub const WIRE_LEN: usize = 1;

    // The mode's reply, which is its sub-reply code and data; empty if reading refuses.
    pub fn payload(p: &[u8]) -> &[u8]
        ensures { result.now ≡ tail xrd p.now }
    {
        tail_where(Self::check(p), p, Self::WIRE_LEN)
    }

    pub fn encode(self, payload: &[u8], out: &mut [u8]) -> Result<usize, Refusal>
        ensures { (result, out.new) ≡ write xrd self payload.now out.old }
    {
        put_bytes(&[self.mode], payload, Self::CODE, out)
    }
}
