// osdp_LSTATR (0x48), local status: tamper switch and power of a reader.
ghost use Rattle.std.specs.Prelude.{◌≡◌};
ghost use Rattle.payload_util.specs.Prelude.{fields, write};
ghost use Rattle.plain.specs.LStat.{l_stat_r};

use payload_util::{Payload, Record, Refusal, byte_at, put_payload, require_exact_len};

// 0 is normal, 1 is tamper or a power failure; any byte is accepted.
#[derive(Clone, Copy, Debug, PartialEq, Eq)]
pub struct LStatR {
    pub tamper: u8,
    pub power: u8,
}

impl Payload for LStatR {
    const CODE: u8 = 0x48;

    ghost form = { l_stat_r };

    fn check(p: &[u8]) -> Result<(), Refusal> {
        require_exact_len(p, Self::WIRE_LEN, Self::CODE)
    }

    fn put_kept(p: &[u8], out: &mut [u8]) -> Result<usize, Refusal> {
        put_payload(p, Self::CODE, out)
    }

    #[tactic(auto, using(crate::proofs::Laws::l_stat_r_law))]
    fn keeps_law() {}
}

impl Record for LStatR {
    ghost fields = { fields l_stat_r };

    fn fields(p: &[u8]) -> LStatR {
        LStatR {
            tamper: byte_at(p, 0),
            power: byte_at(p, 1),
        }
    }
}

impl LStatR {
    pub const WIRE_LEN: usize = 2;

    pub fn encode(self, out: &mut [u8]) -> Result<usize, Refusal>
        ensures { (result, out.new) ≡ write l_stat_r self out.old }
    {
        put_payload(&[self.tamper, self.power], Self::CODE, out)
    }
}
