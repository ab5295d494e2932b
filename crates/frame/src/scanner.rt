// Frames in a stream of bytes, such as a serial line gives.
ghost use Rattle.std.specs.Prelude.{◌≡◌, ◌≤◌, length};
ghost use Rattle.frame.specs.Scan.{before, needed, read_at, scan};

use crate::Frame;
use payload_util::{Refusal, Row, byte_at, u16_at};

// What a stream has at a place.
#[derive(Clone, Copy, Debug, PartialEq, Eq)]
pub enum Scanned {
    // a frame, and how many bytes it has
    Read(Frame, usize),
    // how a frame that seems to begin here is refused, and how many bytes to pass over
    Damaged(Refusal, usize),
    // how many bytes to pass over, none of which can begin a frame
    Other(usize),
    // how many bytes have to be there from here on before more can be said
    More(usize),
}

// How many bytes there are before the next one that can begin a frame.
fn before(s: &[u8]) -> usize
    ensures { (result ≡ before s.now) × (result ≤ length s.now) }
{
    s.iter().position(|b| *b == Frame::SOM).unwrap_or(s.len())
}

// How many bytes a frame needs that begins here, as far as can be said.
fn needed(s: &[u8]) -> usize
    ensures { result ≡ needed s.now }
{
    if s.len() < 7 {
        7
    } else {
        u16_at(s, 2) as usize
    }
}

// The frame that begins here, of as many bytes as it needs or as there are.
fn read_at(s: &[u8], need: usize) -> Result<Frame, Refusal>
    requires { need ≡ needed s.now }
    ensures { result ≡ read_at s.now }
{
    if need <= Frame::LONGEST {
        Frame::decode(s.get(..need).unwrap_or(s))
    } else {
        Err(Refusal::new(Row::FrameTooLong, 0))
    }
}

// What a stream has at a place from which on these are its bytes; it has ended if no more will come. Every answer but More is of at least one byte, and
// More is given of a stream that has ended only where nothing is left.
pub fn scan(s: &[u8], ended: bool) -> Scanned
    ensures { result ≡ scan s.now ended }
{
    let needed = needed(s);
    if s.is_empty() {
        return Scanned::More(needed);
    }
    if byte_at(s, 0) != Frame::SOM {
        return Scanned::Other(before(s));
    }
    if !ended && s.len() < needed && needed <= Frame::LONGEST {
        return Scanned::More(needed);
    }
    match read_at(s, needed) {
        Ok(frame) => Scanned::Read(frame, needed),
        Err(e) => Scanned::Damaged(e, 1 + before(&s[1..])),
    }
}
