// osdp_ACURXSIZE (0x7B): the largest packet that the panel can receive.
ghost use Rattle.std.specs.Prelude.{◌≡◌};
ghost use Rattle.payload_util.specs.Prelude.{u16_bytes, put, fields, write};
ghost use Rattle.plain.specs.Number.{acu_rx_size};

use payload_util::{Payload, Record, Refusal, put_payload, require_exact_len, u16_at};

#[derive(Clone, Copy, Debug, PartialEq, Eq)]
pub struct AcuRxSize {
    pub max_size: u16,
}

impl Payload for AcuRxSize {
    const CODE: u8 = 0x7B;

    ghost form = { acu_rx_size };

    fn check(p: &[u8]) -> Result<(), Refusal> {
        require_exact_len(p, Self::WIRE_LEN, Self::CODE)
    }

    fn put_kept(p: &[u8], out: &mut [u8]) -> Result<usize, Refusal> {
        put_payload(p, Self::CODE, out)
    }

    #[tactic(auto, using(crate::proofs::Laws::acu_rx_size_law))]
    fn keeps_law() {}
}

impl Record for AcuRxSize {
    ghost fields = { fields acu_rx_size };

    fn fields(p: &[u8]) -> AcuRxSize {
        AcuRxSize {
            max_size: u16_at(p, 0),
        }
    }
}

impl AcuRxSize {
    pub const WIRE_LEN: usize = 2;

    pub fn encode(self, out: &mut [u8]) -> Result<usize, Refusal>
        ensures { (result, out.new) ≡ write acu_rx_size self out.old }
    {
        put_number(self.max_size, Self::CODE, out)
    }
}

// Writes one number, as ACURXSIZE and KEEPACTIVE have it.
pub(crate) fn put_number(number: u16, code: u8, out: &mut [u8]) -> Result<usize, Refusal>
    ensures { (result, out.new) ≡ put code (u16_bytes number) out.old }
{
    put_payload(&number.to_le_bytes(), code, out)
}
