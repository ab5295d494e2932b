// A walker over the records of an LED payload: it holds the payload and an offset, and hands out the records in order.
#![tactic(auto)]

ghost use Rattle.std.specs.Prelude.{◌≡◌};
ghost use Rattle.std.specs.Iterator.{at_most};
ghost use Rattle.led_walker.specs.Walk.{start_led, stepped, records_left};

use led::LedRecord;
use lists::ListRecord;
use payload_util::{Payload, Refusal};

#[derive(Clone, Copy, Debug, PartialEq, Eq)]
pub struct LedWalker<'a> {
    pub payload: &'a [u8],
    pub offset: usize,
}

impl<'a> LedWalker<'a> {
    // Refuses as the LED reader does.
    pub fn start(payload: &'a [u8]) -> Result<LedWalker<'a>, Refusal>
        ensures { result ≡ start_led payload.entry }
    {
        LedRecord::check(payload)?;
        Ok(LedWalker { payload, offset: 0 })
    }
}

impl<'a> Iterator for LedWalker<'a> {
    type Item = LedRecord;

    ghost next_gives = { λ s r t. (r, t) ≡ stepped s };

    ghost remaining = { λ s. at_most (records_left s) };

    // Hands out the record at the walker's offset and moves past it. If fewer than 14 bytes are left from there, it is finished and stays.
    fn next(&mut self) -> Option<LedRecord> {
        let record = LedRecord::decode_at(self.payload, self.offset)?;
        self.offset += LedRecord::WIRE_LEN;
        Some(record)
    }
}
