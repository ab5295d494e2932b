// osdp_RAW (0x50) and osdp_FMT (0x51): card data as bits and as characters.
#![tactic(auto)]

ghost use Rattle.std.specs.Prelude.{◌≡◌, ◌*◌, ◌≤◌, min, length, take};
ghost use Rattle.payload_util.specs.Prelude.{fields, tail, write};
ghost use Rattle.raw_card.specs.Raw.{bytes_for, raw, all_bits, write_bits};
ghost use Rattle.raw_card.specs.Fmt.{fmt};

use payload_util::{
    Payload, Record, Refusal, byte_at, put_bytes, put_payload, require_head_and_tail, require_room,
    require_tail_len, tail_where, u16_at,
};

// The fixed fields; the bits are the tail.
#[derive(Clone, Copy, Debug, PartialEq, Eq)]
pub struct Raw {
    pub reader: u8,
    pub format_code: u8,
    pub bit_count: u16,
}

// How many bytes so many bits take.
fn bytes_for(bit_count: u16) -> u16
    ensures { result ≡ bytes_for bit_count }
{
    bit_count.div_ceil(8)
}

impl Payload for Raw {
    const CODE: u8 = 0x50;

    ghost form = { raw };

    fn check(p: &[u8]) -> Result<(), Refusal> {
        let tail = bytes_for(u16_at(p, 2));
        require_head_and_tail(p, Self::WIRE_LEN, tail, Self::CODE)
    }

    fn put_kept(p: &[u8], out: &mut [u8]) -> Result<usize, Refusal> {
        put_payload(p, Self::CODE, out)
    }

    #[tactic(auto, using(crate::proofs::Laws::raw_law))]
    fn keeps_law() {}
}

impl Record for Raw {
    ghost fields = { fields raw };

    fn fields(p: &[u8]) -> Raw {
        Raw {
            reader: byte_at(p, 0),
            format_code: byte_at(p, 1),
            bit_count: u16_at(p, 2),
        }
    }
}

impl Raw {
    pub const WIRE_LEN: usize = 4;

    // The bytes that hold the bits; bits past the count are as they came. Empty if reading refuses.
    pub fn bits(p: &[u8]) -> &[u8]
        ensures { result.now ≡ tail raw p.now }
    {
        tail_where(Self::check(p), p, Self::WIRE_LEN)
    }

    pub fn encode(self, bits: &[u8], out: &mut [u8]) -> Result<usize, Refusal>
        ensures { (result, out.new) ≡ write raw self bits.now out.old }
    {
        let count = self.bit_count;
        require_tail_len(bits, bytes_for(count) as usize, Self::CODE)?;
        let [low, high] = count.to_le_bytes();
        let head = [self.reader, self.format_code, low, high];
        put_bytes(&head, bits, Self::CODE, out)
    }

    // Writes a byte, 0 or 1, for each bit up to the count, highest bit first. If the bytes have fewer bits than the count, writes those.
    #[tactic(auto, using(payload_util::proofs::Guards::passed, payload_util::proofs::Guards::room_pass))]
    pub fn iter_bits(self, bits: &[u8], out: &mut [u8]) -> Result<usize, Refusal>
        ensures { (result, out.new) ≡ write_bits self bits.now out.old }
    {
        let n = bits_given(self.bit_count, bits.len());
        require_room(n, Self::CODE, out.len())?;
        fill_bits(bits, &mut out[..n]);
        Ok(n)
    }
}

// The smaller of a bit count and 8 times a number of bytes.
fn bits_given(bit_count: u16, bytes: usize) -> usize
    ensures { result ≡ min bit_count (8 * bytes) }
{
    (bit_count as usize).min(bytes.saturating_mul(8))
}

// Writes bits until the buffer is full: byte by byte and, inside, bit by bit, the form that docs/REQUIREMENTS.md asks for (R10.4). By index, since
// of what `iter_mut().enumerate()` lends a proof knows no element.
fn fill_bits(bits: &[u8], out: &mut [u8])
    requires { length out.old ≤ 8 * length bits.now }
    ensures { out.new ≡ take (length out.old) (all_bits bits.now) }
{
    'bytes: for (i, byte) in bits.iter().enumerate() {
        for k in 0..8 {
            let at = 8 * i + k;
            if at == out.len() {
                break 'bytes;
            }
            out[at] = *byte >> (7 - k) & 1;
        }
    }
}

// The fixed fields; the characters are the tail.
#[derive(Clone, Copy, Debug, PartialEq, Eq)]
pub struct Fmt {
    pub reader: u8,
    pub direction: u8,
    pub char_count: u8,
}

impl Payload for Fmt {
    const CODE: u8 = 0x51;

    ghost form = { fmt };

    fn check(p: &[u8]) -> Result<(), Refusal> {
        let tail = byte_at(p, 2) as u16;
        require_head_and_tail(p, Self::WIRE_LEN, tail, Self::CODE)
    }

    fn put_kept(p: &[u8], out: &mut [u8]) -> Result<usize, Refusal> {
        put_payload(p, Self::CODE, out)
    }

    #[tactic(auto, using(crate::proofs::Laws::fmt_law))]
    fn keeps_law() {}
}

impl Record for Fmt {
    ghost fields = { fields fmt };

    fn fields(p: &[u8]) -> Fmt {
        Fmt {
            reader: byte_at(p, 0),
            direction: byte_at(p, 1),
            char_count: byte_at(p, 2),
        }
    }
}

impl Fmt {
    pub const WIRE_LEN: usize = 3;

    // The characters; empty if reading refuses.
    pub fn chars(p: &[u8]) -> &[u8]
        ensures { result.now ≡ tail fmt p.now }
    {
        tail_where(Self::check(p), p, Self::WIRE_LEN)
    }

    pub fn encode(self, chars: &[u8], out: &mut [u8]) -> Result<usize, Refusal>
        ensures { (result, out.new) ≡ write fmt self chars.now out.old }
    {
        require_tail_len(chars, self.char_count as usize, Self::CODE)?;
        let head = [self.reader, self.direction, self.char_count];
        put_bytes(&head, chars, Self::CODE, out)
    }
}
