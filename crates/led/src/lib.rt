// osdp_LED (0x69), reader LED control: a list of records, each with a temporary and a permanent half.
#![tactic(auto)]

ghost use Rattle.std.specs.Prelude.{◌≡◌, ◌∷◌, [], ◌*◌, ◌/◌, ◌≤◌, ◌<◌, length, refl};
ghost use Rattle.std.proofs.Common.{lit<};
ghost use Rattle.payload_util.specs.Prelude.{keep, times, code, fields};
ghost use Rattle.payload_util.specs.Form.{bytes};
ghost use Rattle.lists.specs.List.{put_at};
ghost use Rattle.led.specs.Led.{color_byte, color_of, highest_color, highest_known};
ghost use Rattle.led.specs.Led.{temporary_of, permanent_of, led_of, led_bytes, led_code, led_at, led_limits, record_within, colors_within, colors_known, led_row, leds};

use lists::{ListRecord, put_at};
use payload_util::{
    Payload, Refusal, Row, byte_at, folded, put_payload, require_limit,
    require_positive_multiple_of, tail_from, u16_at,
};

// Table 18.
#[derive(Clone, Copy, Debug, PartialEq, Eq)]
pub enum LedColor {
    Black = 0,
    Red = 1,
    Green = 2,
    Amber = 3,
    Blue = 4,
    Magenta = 5,
    Cyan = 6,
    White = 7,
}

impl LedColor {
    const HIGHEST: u8 = LedColor::White as u8;

    // By its name in the Rust, with no `From` beside it. An unknown colour becomes Black.
    #[tactic(auto, unfolding(crate::specs::Led::color_of))]
    pub fn from_byte(b: u8) -> LedColor
        ensures { result ≡ color_of b }
    {
        match b {
            0 => LedColor::Black,
            1 => LedColor::Red,
            2 => LedColor::Green,
            3 => LedColor::Amber,
            4 => LedColor::Blue,
            5 => LedColor::Magenta,
            6 => LedColor::Cyan,
            7 => LedColor::White,
            _ => LedColor::Black,
        }
    }

    pub fn as_byte(self) -> u8
        ensures { result ≡ color_byte self }
    {
        self as u8
    }
}

// Two generations of readers, which differ in the colours that they know: the first those up to Blue, the second all.
#[derive(Clone, Copy, Debug, PartialEq, Eq)]
pub enum Generation {
    First,
    Second,
}

impl Generation {
    pub fn highest_color(self) -> u8
        ensures { result ≡ highest_known self }
    {
        match self {
            Generation::First => LedColor::Blue as u8,
            Generation::Second => LedColor::HIGHEST,
        }
    }
}

// Times are in units of 100 ms.
#[derive(Clone, Copy, Debug, PartialEq, Eq)]
pub struct LedTemporary {
    // Table 16: 0 no operation, 1 cancel, 2 set.
    pub control: u8,
    pub on_time: u8,
    pub off_time: u8,
    pub on_color: LedColor,
    pub off_color: LedColor,
    pub timer: u16,
}

impl LedTemporary {
    pub fn new(
        control: u8,
        on_time: u8,
        off_time: u8,
        on_color: LedColor,
        off_color: LedColor,
        timer: u16,
    ) -> LedTemporary
        ensures { result ≡ record { control = control; on_time = on_time; off_time = off_time; on_color = on_color; off_color = off_color; timer = timer } }
    {
        LedTemporary {
            control,
            on_time,
            off_time,
            on_color,
            off_color,
            timer,
        }
    }

    // The temporary half of a record.
    fn decode(buf: &[u8]) -> LedTemporary
        ensures { result ≡ temporary_of buf.now }
    {
        LedTemporary {
            control: byte_at(buf, 2),
            on_time: byte_at(buf, 3),
            off_time: byte_at(buf, 4),
            on_color: LedColor::from_byte(byte_at(buf, 5)),
            off_color: LedColor::from_byte(byte_at(buf, 6)),
            timer: u16_at(buf, 7),
        }
    }
}

#[derive(Clone, Copy, Debug, PartialEq, Eq)]
pub struct LedPermanent {
    // Table 17: 0 no operation, 1 set.
    pub control: u8,
    pub on_time: u8,
    pub off_time: u8,
    pub on_color: LedColor,
    pub off_color: LedColor,
}

impl LedPermanent {
    pub fn new(
        control: u8,
        on_time: u8,
        off_time: u8,
        on_color: LedColor,
        off_color: LedColor,
    ) -> LedPermanent
        ensures { result ≡ record { control = control; on_time = on_time; off_time = off_time; on_color = on_color; off_color = off_color } }
    {
        LedPermanent {
            control,
            on_time,
            off_time,
            on_color,
            off_color,
        }
    }

    // The permanent half of a record.
    fn decode(buf: &[u8]) -> LedPermanent
        ensures { result ≡ permanent_of buf.now }
    {
        LedPermanent {
            control: byte_at(buf, 9),
            on_time: byte_at(buf, 10),
            off_time: byte_at(buf, 11),
            on_color: LedColor::from_byte(byte_at(buf, 12)),
            off_color: LedColor::from_byte(byte_at(buf, 13)),
        }
    }
}

#[derive(Clone, Copy, Debug, PartialEq, Eq)]
pub struct LedRecord {
    pub reader: u8,
    pub led: u8,
    pub temporary: LedTemporary,
    pub permanent: LedPermanent,
}

impl Payload for LedRecord {
    const CODE: u8 = 0x69;

    ghost form = { leds };

    fn check(p: &[u8]) -> Result<(), Refusal> {
        require_positive_multiple_of(p, Self::WIRE_LEN, Self::CODE)
    }

    // The payload as it came, and then its colours folded where it is.
    #[tactic(auto, using(payload_util::proofs::Losses::length_keep))]
    fn put_kept(p: &[u8], out: &mut [u8]) -> Result<usize, Refusal> {
        let written = put_payload(p, Self::CODE, out)?;
        Self::fold_all(&mut out[..written]);
        Ok(written)
    }

    #[tactic(auto, using(crate::proofs::Laws::led_law))]
    fn keeps_law() {}
}

impl ListRecord for LedRecord {
    const WIRE_LEN: usize = 14;

    ghost WIRE_LEN = { 14 };

    ghost list_row = { led_row };

    ghost same_width = { refl };

    ghost same_code = { refl };

    ghost same_check = { λ p. refl };

    ghost some_bytes = { lit< tt };

    ghost all_bytes = { λ r. refl };

    fn code() -> u8 {
        Self::CODE
    }

    fn fields(p: &[u8]) -> LedRecord
        ensures { result ≡ fields leds p.now }
    {
        LedRecord {
            reader: byte_at(p, 0),
            led: byte_at(p, 1),
            temporary: LedTemporary::decode(p),
            permanent: LedPermanent::decode(p),
        }
    }

    fn encode_at(self, out: &mut [u8], offset: usize) -> Result<usize, Refusal>
        ensures { (result, out.new) ≡ put_at (code leds) offset (bytes leds (self ∷ [])) out.old }
    {
        put_at(&self.to_bytes(), Self::CODE, out, offset)
    }
}

impl LedRecord {
    // The record's bytes.
    fn to_bytes(self) -> [u8; 14]
        ensures { result ≡ led_bytes self }
    {
        let temporary = self.temporary;
        let permanent = self.permanent;
        let timer = temporary.timer.to_le_bytes();
        [
            self.reader,
            self.led,
            temporary.control,
            temporary.on_time,
            temporary.off_time,
            temporary.on_color.as_byte(),
            temporary.off_color.as_byte(),
            timer[0],
            timer[1],
            permanent.control,
            permanent.on_time,
            permanent.off_time,
            permanent.on_color.as_byte(),
            permanent.off_color.as_byte(),
        ]
    }

    // The record at an offset, which may also be past the end; none if fewer bytes are left from there than a record has.
    pub fn decode_at(p: &[u8], offset: usize) -> Option<LedRecord>
        ensures { result ≡ led_at p.now offset }
    {
        let part = tail_from(p, offset);
        if part.len() < Self::WIRE_LEN {
            return None;
        }
        Some(Self::fields(part))
    }

    // Folds the colours of a record: one above the highest becomes Black.
    fn fold(bytes: &mut [u8])
        requires { 14 ≤ length bytes.old }
        ensures { bytes.new ≡ keep (led_limits highest_color) bytes.old }
    {
        bytes[5] = folded(bytes[5], LedColor::HIGHEST);
        bytes[6] = folded(bytes[6], LedColor::HIGHEST);
        bytes[12] = folded(bytes[12], LedColor::HIGHEST);
        bytes[13] = folded(bytes[13], LedColor::HIGHEST);
    }

    // Folds the colours of all records. By number, since of a slice lent in chunks it is not known what it ends as.
    fn fold_all(p: &mut [u8])
        ensures { p.new ≡ keep (times (length p.old / 14) (led_limits highest_color)) p.old }
    {
        for k in 0..p.len() / Self::WIRE_LEN {
            let start = k * Self::WIRE_LEN;
            Self::fold(&mut p[start..start + Self::WIRE_LEN]);
        }
    }

    // The row for the first colour of a record, by offset, that is above the highest.
    #[tactic(auto, using(payload_util::proofs::Guards::passed, payload_util::proofs::Guards::stopped, payload_util::proofs::Guards::skipped, crate::proofs::Limits::record_limits))]
    fn record_within(p: &[u8], index: usize, highest: u8, row: Row) -> Result<(), Refusal>
        requires { index < length p.now / 14 }
        ensures { result ≡ record_within row highest p.now index }
    {
        let start = Self::WIRE_LEN * index;
        require_limit(p, start + 5, highest, row, Self::CODE)?;
        require_limit(p, start + 6, highest, row, Self::CODE)?;
        require_limit(p, start + 12, highest, row, Self::CODE)?;
        require_limit(p, start + 13, highest, row, Self::CODE)
    }

    // The row for the first colour of the payload, by offset, that is above the highest. By number, since the row names an offset of the payload; the
    // highest colour and the row are parameters, as in the law.
    #[tactic(auto, using(payload_util::proofs::Guards::passed, payload_util::proofs::Guards::refused, payload_util::proofs::InOrder::more, payload_util::proofs::InOrder::stop, payload_util::proofs::InOrder::done, crate::proofs::Limits::all_records))]
    fn colors_within(p: &[u8], highest: u8, row: Row) -> Result<(), Refusal>
        ensures { result ≡ colors_within row highest p.now }
    {
        for k in 0..Self::count(p) {
            Self::record_within(p, k, highest, row)?;
        }
        Ok(())
    }

    // Row 17 for the first colour of the payload, by offset, that reading would fold; for the first generation, if there is none, row 18 for the
    // first that it does not know.
    pub fn within_limits(p: &[u8], generation: Generation) -> Result<(), Refusal>
        ensures { result ≡ colors_known generation p.now }
    {
        Self::colors_within(p, LedColor::HIGHEST, Row::Folded)?;
        match generation {
            Generation::First => {
                Self::colors_within(p, generation.highest_color(), Row::SecondGenerationColor)
            }
            Generation::Second => Ok(()),
        }
    }
}
