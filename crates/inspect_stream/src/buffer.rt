// The bytes of a stream that are not looked at yet, and how far it is.
use frame::{Scanned, scan};

// How many bytes are held. It is more than a frame may have, so that of a full stream something can always be said.
pub(crate) const ROOM: usize = 16384;

#[derive(Drop)]
pub(crate) struct Stream {
    // of the first byte that is not looked at yet
    pub(crate) offset: u64,
    // where that byte is, and where the last one ends
    from: usize,
    to: usize,
    bytes: [u8; ROOM],
}

impl Stream {
    pub(crate) fn new() -> Stream {
        Stream {
            offset: 0,
            from: 0,
            to: 0,
            bytes: [0; ROOM],
        }
    }

    pub(crate) fn is_full(&self) -> bool {
        self.to >= ROOM
    }

    // Takes one more byte, for which there has to be room.
    pub(crate) fn push(&mut self, b: u8) {
        if self.to < ROOM {
            self.bytes[self.to] = b;
            self.to += 1;
        }
    }

    // What is not looked at yet.
    pub(crate) fn rest(&self) -> &[u8] {
        self.bytes.get(self.from..self.to).unwrap_or(&[])
    }

    // The next n bytes, or as many as there are.
    pub(crate) fn next(&self, n: usize) -> &[u8] {
        let rest = self.rest();
        rest.get(..n).unwrap_or(rest)
    }

    // What there is at this place; the stream has ended if no more bytes will come.
    pub(crate) fn look(&self, ended: bool) -> Scanned {
        scan(self.rest(), ended)
    }

    // Goes on by so many bytes.
    pub(crate) fn pass(&mut self, n: usize) {
        let n = self.next(n).len();
        self.offset = self.offset.saturating_add(n as u64);
        self.from = self.from.saturating_add(n);
    }

    // Drops what was looked at, so that there is room for more.
    pub(crate) fn make_room(&mut self) {
        if self.from <= self.to && self.to <= ROOM {
            self.bytes.copy_within(self.from..self.to, 0);
            self.to -= self.from;
            self.from = 0;
        }
    }
}
