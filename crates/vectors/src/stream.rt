// The stream of cases, and the space that it is read into.
ghost use Rattle.std.specs.Prelude.{◌≡◌, ◌≤◌, ◌-◌};

use payload_util::Refusal;
use std::io;
use std::io::Read;
use vectors_case::wanted;

// The space holds the bytes that were read, up to this index, and from there on the input and the output of the case that was taken last.
const BLOCKS: usize = 262144;

// The most bytes of an input and an output together.
pub const MOST: usize = 131584;

// The whole space.
const SPACE: usize = BLOCKS + MOST;

// The class whose room is in the stream.
pub const PLACE: u8 = 14;

// What the stream has of a case beside its bytes, or of the record that ends a stream.
#[derive(Clone, Copy, Debug, PartialEq, Eq)]
pub struct Head {
    pub class: u8,
    pub code: u8,
    pub argument: usize,
    // the wanted answer; none if no row has its number
    pub wanted: Option<Result<(), Refusal>>,
    // the room that the stream gives; none if the case is tried with several
    pub room: Option<usize>,
}

// A case whose bytes are in the space.
#[derive(Clone, Copy)]
pub struct Entry<'a> {
    pub head: Head,
    pub input: &'a [u8],
    pub want: &'a [u8],
}

// A case that does not fit into the space.
#[derive(Clone, Copy, Debug, PartialEq, Eq)]
pub struct Unfit;

// How an input or an output is stored: how many of its bytes, how many more are filled up, and with which byte.
#[derive(Clone, Copy)]
struct Block {
    stored: usize,
    filled: usize,
    fill: u8,
}

// A case as it is stored: its head, how many bytes that has, and its blocks, whose stored bytes follow the head.
#[derive(Clone, Copy)]
struct Packed {
    head: Head,
    head_size: usize,
    input: Block,
    output: Block,
}

impl Packed {
    fn size(self) -> usize {
        self.head_size
            .saturating_add(self.input.stored)
            .saturating_add(self.output.stored)
    }
}

// A number and what follows it: one byte below 255, or 255 and then eight bytes, low byte first. None if the stream ends before the number does.
fn read_number(s: &[u8]) -> Option<(usize, &[u8])> {
    let (first, rest) = s.split_first()?;
    if *first < 255 {
        return Some((usize::from(*first), rest));
    }
    let (bytes, rest) = rest.split_first_chunk::<8>()?;
    Some((usize::from_le_bytes(*bytes), rest))
}

// None if the stream ends before the head does.
fn read_packed(s: &[u8]) -> Option<Packed> {
    let (bytes, rest) = s.split_first_chunk::<5>()?;
    let [class, code, row, fill, fill_out] = *bytes;
    let (argument, rest) = read_number(rest)?;
    let (first, rest) = read_number(rest)?;
    let (second, rest) = read_number(rest)?;
    let (stored, rest) = read_number(rest)?;
    let (filled, rest) = read_number(rest)?;
    let (stored_out, rest) = read_number(rest)?;
    let (filled_out, rest) = read_number(rest)?;
    let head = Head {
        class,
        code,
        argument,
        wanted: wanted(row, code, first, second),
        room: (class == PLACE).then_some(second),
    };
    Some(Packed {
        head,
        head_size: s.len().saturating_sub(rest.len()),
        input: Block {
            stored,
            filled,
            fill,
        },
        output: Block {
            stored: stored_out,
            filled: filled_out,
            fill: fill_out,
        },
    })
}

// Puts a block whose stored bytes are at one index at another, and says where it ends.
fn put_block(space: &mut [u8], at: usize, to: usize, b: Block) -> Result<usize, Unfit> {
    let stored = to.saturating_add(b.stored);
    let end = stored.saturating_add(b.filled);
    if space.get(at..).is_none_or(|s| s.len() < b.stored) || space.len() < end {
        return Err(Unfit);
    }
    space.copy_within(at..at + b.stored, to);
    space[stored..end].fill(b.fill);
    Ok(end)
}

#[derive(Drop)]
pub struct Space {
    bytes: [u8; SPACE],
    // the bytes that were read and not taken: from one index up to another
    from: usize,
    to: usize,
    ghost in_order: { from ≤ to },
    ghost before_blocks: { to ≤ 262144 },
}

impl Space {
    pub fn new() -> Space {
        Space {
            bytes: [0; SPACE],
            from: 0,
            to: 0,
        }
    }

    pub fn unread(&self) -> usize
        ensures { result ≡ self.now.to - self.now.from }
    {
        self.to - self.from
    }

    // Takes a case, and puts its input behind the unread bytes and its output behind its input. None if only the beginning of a case is there, or
    // nothing.
    pub fn take(&mut self) -> Result<Option<Entry>, Unfit> {
        let unread = &self.bytes[self.from..self.to];
        let Some(p) = read_packed(unread) else {
            return Ok(None);
        };
        let size = p.size();
        if unread.len() < size {
            return Ok(None);
        }
        let at = self.from.saturating_add(p.head_size);
        let mid = put_block(&mut self.bytes, at, BLOCKS, p.input)?;
        let end = put_block(
            &mut self.bytes,
            at.saturating_add(p.input.stored),
            mid,
            p.output,
        )?;
        self.from += size;
        let input = self.bytes.get(BLOCKS..mid).ok_or(Unfit)?;
        let want = self.bytes.get(mid..end).ok_or(Unfit)?;
        Ok(Some(Entry {
            head: p.head,
            input,
            want,
        }))
    }

    // Moves the unread bytes to the front, reads once behind them, and returns how many more there are.
    pub fn refill<R: Read>(&mut self, input: &mut R) -> io::Result<usize> {
        let n = self.unread();
        self.bytes.copy_within(self.from..self.to, 0);
        self.from = 0;
        self.to = n;
        let got = input.read(&mut self.bytes[n..BLOCKS])?;
        self.to += got;
        Ok(got)
    }
}
