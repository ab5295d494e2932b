// osdp_TEXT (0x6B): text for a reader's display.
#![tactic(auto)]

ghost use Rattle.std.specs.Prelude.{◌≡◌};
ghost use Rattle.payload_util.specs.Prelude.{fields, tail, write};
ghost use Rattle.text.specs.Text.{text_command_byte, read_text_command, told, printable, text_kind};

use payload_util::{
    Payload, Record, Refusal, Row, byte_at, put_bytes, put_payload, require, require_at_most,
    require_head_and_tail, tail_from, tail_where,
};

// Table 21.
#[derive(Clone, Copy, Debug, PartialEq, Eq)]
pub enum TextCommand {
    PermanentNoWrap = 0x01,
    PermanentWrap = 0x02,
    TemporaryNoWrap = 0x03,
    TemporaryWrap = 0x04,
}

impl TextCommand {
    // By its name in the Rust, with no `TryFrom` beside it. Row 9 if no command has this byte.
    #[tactic(auto, unfolding(crate::specs::Text::read_text_command))]
    pub fn from_byte(b: u8) -> Result<Self, Refusal>
        ensures { result ≡ read_text_command b }
    {
        match b {
            0x01 => Ok(TextCommand::PermanentNoWrap),
            0x02 => Ok(TextCommand::PermanentWrap),
            0x03 => Ok(TextCommand::TemporaryNoWrap),
            0x04 => Ok(TextCommand::TemporaryWrap),
            _ => Err(Refusal::new(Row::UnknownTextCommand, Text::CODE)),
        }
    }

    pub fn as_byte(self) -> u8
        ensures { result ≡ text_command_byte self }
    {
        self as u8
    }
}

// The fixed fields; the text is the tail.
#[derive(Clone, Copy, Debug, PartialEq, Eq)]
pub struct Text {
    pub reader: u8,
    pub command: TextCommand,
    // Seconds; 0 for a permanent command.
    pub temp_time_s: u8,
    pub row: u8,
    pub column: u8,
}

impl Payload for Text {
    const CODE: u8 = 0x6B;

    ghost form = { text_kind };

    #[tactic(auto, using(crate::proofs::Laws::shape_least), unfolding(crate::specs::Text::text_shape))]
    fn check(p: &[u8]) -> Result<(), Refusal> {
        let tail = byte_at(p, 5) as u16;
        require_head_and_tail(p, Self::WIRE_LEN, tail, Self::CODE)?;
        Self::validate_ascii(tail_from(p, Self::WIRE_LEN))?;
        TextCommand::from_byte(p[1])?;
        Ok(())
    }

    fn put_kept(p: &[u8], out: &mut [u8]) -> Result<usize, Refusal> {
        put_payload(p, Self::CODE, out)
    }

    #[tactic(auto, using(crate::proofs::Laws::text_law))]
    fn keeps_law() {}
}

impl Record for Text {
    ghost fields = { fields text_kind };

    fn fields(p: &[u8]) -> Text {
        let command = TextCommand::from_byte(byte_at(p, 1));
        Text {
            reader: byte_at(p, 0),
            command: command.unwrap_or(TextCommand::PermanentNoWrap),
            temp_time_s: byte_at(p, 2),
            row: byte_at(p, 3),
            column: byte_at(p, 4),
        }
    }
}

impl Text {
    // Including the length field.
    pub const WIRE_LEN: usize = 6;

    // Row 8 if a byte of the text is outside 0x20 to 0x7E.
    fn validate_ascii(s: &[u8]) -> Result<(), Refusal>
        ensures { result ≡ printable s.now }
    {
        require(
            Self::printable_text(s),
            Refusal::new(Row::UnprintableText, Self::CODE),
        )
    }

    // Whether every byte lies in 0x20 to 0x7E: eight as one word while there are eight, and the rest singly. The words by `position`: with `all` the check
    // of the longest text takes 76 ns in place of 62 (docs/PERFORMANCE.md).
    fn printable_text(s: &[u8]) -> bool
        ensures { told result ≡ printable s.now }
    {
        let (words, rest) = s.as_chunks::<8>();
        let other = words.iter().position(|w| !Self::printable_word(w));
        other.is_none() && Self::printable_singly(rest)
    }

    fn printable_singly(s: &[u8]) -> bool
        ensures { told result ≡ printable s.now }
    {
        s.iter().all(|b| matches!(*b, 0x20..=0x7E))
    }

    // Whether all eight bytes do. No byte of low is above 0x7F, so neither the sum nor the difference carries from a byte into the next one.
    // A byte's top bit is set in over if low has 0x7F there, and in under if low has less than 0x20.
    fn printable_word(s: &[u8; 8]) -> bool
        ensures { told result ≡ printable s.now }
    {
        let w = u64::from_le_bytes(*s);
        let low = w & 0x7F7F_7F7F_7F7F_7F7F;
        let over = low + 0x0101_0101_0101_0101;
        let under = 0x9F9F_9F9F_9F9F_9F9F - low;
        (w | over | under) & 0x8080_8080_8080_8080 == 0
    }

    // The text; empty if reading refuses.
    pub fn text(p: &[u8]) -> &[u8]
        ensures { result.now ≡ tail text_kind p.now }
    {
        tail_where(Self::check(p), p, Self::WIRE_LEN)
    }

    #[tactic(auto, using(payload_util::proofs::Guards::most_pass))]
    pub fn encode(self, text: &[u8], out: &mut [u8]) -> Result<usize, Refusal>
        ensures { (result, out.new) ≡ write text_kind self text.now out.old }
    {
        Self::validate_ascii(text)?;
        require_at_most(text, 255, Self::CODE)?;
        let head = [
            self.reader,
            self.command.as_byte(),
            self.temp_time_s,
            self.row,
            self.column,
            text.len() as u8,
        ];
        put_bytes(&head, text, Self::CODE, out)
    }
}
