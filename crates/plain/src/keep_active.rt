// osdp_KEEPACTIVE (0xA7): for how many milliseconds a reader is to stay active. The layout is that of ACURXSIZE, but
// the field's name, which is the Rust's, is another.
ghost use Rattle.std.specs.Prelude.{◌≡◌};
ghost use Rattle.payload_util.specs.Prelude.{fields, write};
ghost use Rattle.plain.specs.Number.{keep_active};

use crate::acu_rx_size::put_number;
use payload_util::{Payload, Record, Refusal, put_payload, require_exact_len, u16_at};

#[derive(Clone, Copy, Debug, PartialEq, Eq)]
pub struct KeepActive {
    pub duration_ms: u16,
}

impl Payload for KeepActive {
    const CODE: u8 = 0xA7;

    ghost form = { keep_active };

    fn check(p: &[u8]) -> Result<(), Refusal> {
        require_exact_len(p, Self::WIRE_LEN, Self::CODE)
    }

    fn put_kept(p: &[u8], out: &mut [u8]) -> Result<usize, Refusal> {
        put_payload(p, Self::CODE, out)
    }

    #[tactic(auto, using(crate::proofs::Laws::keep_active_law))]
    fn keeps_law() {}
}

impl Record for KeepActive {
    ghost fields = { fields keep_active };

    fn fields(p: &[u8]) -> KeepActive {
        KeepActive {
            duration_ms: u16_at(p, 0),
        }
    }
}

impl KeepActive {
    pub const WIRE_LEN: usize = 2;

    pub fn encode(self, out: &mut [u8]) -> Result<usize, Refusal>
        ensures { (result, out.new) ≡ write keep_active self out.old }
    {
        put_number(self.duration_ms, Self::CODE, out)
    }
}
