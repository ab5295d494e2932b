// osdp_COM (0x54): the address and the baud rate of a reader.
ghost use Rattle.std.specs.Prelude.{◌≡◌};
ghost use Rattle.payload_util.specs.Prelude.{fields, write};
ghost use Rattle.plain.specs.Com.{address_and_baud};

use crate::comset::ComSet;
use payload_util::{
    Payload, Record, Refusal, byte_at, put_payload, require_exact_len, u32_at, u32_bytes,
};

// What COM and COMSET hold; they differ in the code byte alone.
#[derive(Clone, Copy, Debug, PartialEq, Eq)]
pub struct AddressAndBaud<const CODE: u8> {
    pub address: u8,
    pub baud: u32,
}

impl<const CODE: u8> Payload for AddressAndBaud<CODE> {
    const CODE: u8 = CODE;

    ghost form = { address_and_baud CODE };

    fn check(p: &[u8]) -> Result<(), Refusal> {
        let len = if CODE == ComSet::CODE {
            ComSet::WIRE_LEN
        } else {
            Com::WIRE_LEN
        };
        require_exact_len(p, len, CODE)
    }

    fn put_kept(p: &[u8], out: &mut [u8]) -> Result<usize, Refusal> {
        put_payload(p, CODE, out)
    }

    #[tactic(auto, using(crate::proofs::Laws::com_law))]
    fn keeps_law() {}
}

impl<const CODE: u8> Record for AddressAndBaud<CODE> {
    ghost fields = { fields (address_and_baud CODE) };

    fn fields(p: &[u8]) -> AddressAndBaud<CODE> {
        AddressAndBaud {
            address: byte_at(p, 0),
            baud: u32_at(p, 1),
        }
    }
}

impl<const CODE: u8> AddressAndBaud<CODE> {
    pub fn encode(self, out: &mut [u8]) -> Result<usize, Refusal>
        ensures { (result, out.new) ≡ write (address_and_baud CODE) self.entry out.old }
    {
        let b = u32_bytes(self.baud);
        put_payload(&[self.address, b[0], b[1], b[2], b[3]], CODE, out)
    }
}

pub type Com = AddressAndBaud<0x54>;

// Its own constants, which `check` goes by, since a pattern of a `match` cannot name one of an `impl` for every code byte.
impl Com {
    pub const CODE: u8 = 0x54;

    pub const WIRE_LEN: usize = 5;
}
