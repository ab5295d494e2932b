// osdp_KEYPAD (0x53): digits that were typed at a reader.
#![tactic(auto)]

ghost use Rattle.std.specs.Prelude.{◌≡◌};
ghost use Rattle.payload_util.specs.Prelude.{fields, tail, write};
ghost use Rattle.keypad.specs.Keypad.{keypad};

use payload_util::{
    Payload, Record, Refusal, byte_at, put_bytes, put_payload, require_head_and_tail,
    require_tail_len, tail_where,
};

// The fixed fields; the digits are the tail.
#[derive(Clone, Copy, Debug, PartialEq, Eq)]
pub struct Keypad {
    pub reader: u8,
    pub digit_count: u8,
}

impl Payload for Keypad {
    const CODE: u8 = 0x53;

    ghost form = { keypad };

    fn check(p: &[u8]) -> Result<(), Refusal> {
        let tail = byte_at(p, 1) as u16;
        require_head_and_tail(p, Self::WIRE_LEN, tail, Self::CODE)
    }

    fn put_kept(p: &[u8], out: &mut [u8]) -> Result<usize, Refusal> {
        put_payload(p, Self::CODE, out)
    }

    #[tactic(auto, using(crate::proofs::Laws::keypad_law))]
    fn keeps_law() {}
}

impl Record for Keypad {
    ghost fields = { fields keypad };

    fn fields(p: &[u8]) -> Keypad {
        Keypad {
            reader: byte_at(p, 0),
            digit_count: byte_at(p, 1),
        }
    }
}

impl Keypad {
    pub const WIRE_LEN: usize = 2;

    // The digits, ASCII, 0x7F for clear and 0x0D for enter; any byte is accepted. Empty if reading refuses.
    pub fn digits(p: &[u8]) -> &[u8]
        ensures { result.now ≡ tail keypad p.now }
    {
        tail_where(Self::check(p), p, Self::WIRE_LEN)
    }

    pub fn encode(self, digits: &[u8], out: &mut [u8]) -> Result<usize, Refusal>
        ensures { (result, out.new) ≡ write keypad self digits.now out.old }
    {
        require_tail_len(digits, self.digit_count as usize, Self::CODE)?;
        put_bytes(&[self.reader, self.digit_count], digits, Self::CODE, out)
    }
}
