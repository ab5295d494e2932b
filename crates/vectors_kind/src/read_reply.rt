// The readers of RAW, FMT, KEYPAD, NAK and XRD.
use crate::names;
use keypad::Keypad;
use nak::Nak;
use payload_util::Record;
use raw_card::{Fmt, Raw};
use vectors_case::{Case, u16_bytes};
use xrd::Xrd;

pub(crate) fn raw(c: Case) -> bool {
    let fixed = Raw::decode(c.input).map(raw_fields);
    crate::reads(c, fixed, Raw::bits(c.input), 4)
}

fn raw_fields(r: Raw) -> [u8; 4] {
    let count = u16_bytes(r.bit_count);
    [r.reader, r.format_code, count[0], count[1]]
}

pub(crate) fn fmt(c: Case) -> bool {
    let fixed = Fmt::decode(c.input).map(|r| [r.reader, r.direction, r.char_count]);
    crate::reads(c, fixed, Fmt::chars(c.input), 3)
}

pub(crate) fn keypad(c: Case) -> bool {
    let fixed = Keypad::decode(c.input).map(|r| [r.reader, r.digit_count]);
    crate::reads(c, fixed, Keypad::digits(c.input), 2)
}

pub(crate) fn nak(c: Case) -> bool {
    let fixed = Nak::decode(c.input).map(|r| [names::nak(r.error)]);
    crate::reads(c, fixed, Nak::completion_codes(c.input), 1)
}

pub(crate) fn xrd(c: Case) -> bool {
    let fixed = Xrd::decode(c.input).map(|r| [r.mode]);
    crate::reads(c, fixed, Xrd::payload(c.input), 1)
}
