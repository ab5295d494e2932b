// The two checks of a frame, over bytes that may come in parts: each goes on from a start.
#![tactic(auto)]

ghost use Rattle.std.specs.Prelude.{◌≡◌};
ghost use Rattle.crc.specs.Crc.{crc_bit, crc_byte, crc_of};
ghost use Rattle.crc.specs.Sum.{sum_of, twos_complement};

// One bit: a shift, and the polynomial if a 1 comes out at the top.
#[tactic(auto, unfolding(crate::specs::Crc::crc_bit))]
fn crc_bit(c: u16) -> u16
    ensures { result ≡ crc_bit c }
{
    if c < 0x8000 {
        c << 1
    } else {
        (c << 1) ^ 0x1021
    }
}

// One byte: it goes in at the top, and then eight bits.
fn crc_byte(c: u16, b: u8) -> u16
    ensures { result ≡ crc_byte c b }
{
    let mut r = c ^ ((b as u16) << 8);
    for _ in 0..u8::BITS {
        r = crc_bit(r);
    }
    r
}

// The CRC of all bytes, bit by bit.
pub fn crc(start: u16, bytes: &[u8]) -> u16
    ensures { result ≡ crc_of start bytes.now }
{
    bytes.iter().fold(start, |c, b| crc_byte(c, *b))
}

// The sum of all bytes, which wraps at 256.
pub fn sum(start: u8, bytes: &[u8]) -> u8
    ensures { result ≡ sum_of start bytes.now }
{
    bytes.iter().fold(start, |a, b| a.wrapping_add(*b))
}

pub fn twos_complement(a: u8) -> u8
    ensures { result ≡ twos_complement a }
{
    0u8.wrapping_sub(a)
}
