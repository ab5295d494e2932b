// The lines of the input, one after another, and how many of each sort there were.
use crate::answer::payload;
use crate::failure::read;
use crate::framed;
use inspect_form::shown::Text;
use inspect_line::{Content, Fault, LONGEST, Line, Place, Taken, WORD_SHOWN};
use std::io;
use std::io::{Read, Write};

// Where the input stands: the line so far, and how many lines of each sort there were before it.
#[derive(Drop)]
struct Input {
    taken: Taken,
    read: u64,
    refused: u64,
    bad: u64,
    // for bytes that are shown
    space: [u8; LONGEST],
}

impl Input {
    fn new() -> Input {
        Input {
            taken: Taken::new(),
            read: 0,
            refused: 0,
            bad: 0,
            space: [0; LONGEST],
        }
    }

    // A line that is no payload and no frame. If its first word is wrong, that is shown.
    fn complain<W: Write>(&mut self, fault: Fault, out: &mut W) -> io::Result<()> {
        self.bad = self.bad.saturating_add(1);
        let Line { number, column, .. } = self.taken.line;
        write!(out, "line {number}, column {column}: {fault}")?;
        let word = self.taken.bytes();
        match fault {
            Fault::Word if WORD_SHOWN < word.len() => {
                writeln!(out, " {} (cut)", Text(&word[..WORD_SHOWN]))
            }
            Fault::Word => writeln!(out, " {}", Text(word)),
            _ => writeln!(out),
        }
    }

    // What the line holds; whether it was accepted.
    fn show<W: Write>(&mut self, content: Content, out: &mut W) -> io::Result<bool> {
        let bytes = self.taken.bytes();
        match content {
            Content::Payload(head) => payload(head, bytes, &mut self.space, out),
            Content::Frame => framed::whole(bytes, &mut self.space, out),
        }
    }

    fn answer<W: Write>(&mut self, content: Content, out: &mut W) -> io::Result<()> {
        write!(out, "line {}: ", self.taken.line.number)?;
        if self.show(content, out)? {
            self.read = self.read.saturating_add(1);
        } else {
            self.refused = self.refused.saturating_add(1);
        }
        Ok(())
    }

    fn end_line<W: Write>(&mut self, out: &mut W) -> io::Result<()> {
        self.taken.end();
        match self.taken.line.place {
            Place::Bytes(content) | Place::Whole(content) => self.answer(content, out),
            Place::Bad(fault) => self.complain(fault, out),
            _ => Ok(()),
        }
    }

    // One more byte of the input.
    fn byte<W: Write>(&mut self, b: u8, out: &mut W) -> io::Result<()> {
        if b == b'\n' {
            self.end_line(out)?;
            self.taken.restart();
        } else {
            self.taken.take(b);
        }
        Ok(())
    }

    // The last line, and the counts.
    fn close<W: Write>(&mut self, out: &mut W) -> io::Result<()> {
        self.end_line(out)?;
        match (self.read, self.refused, self.bad) {
            (0, 0, 0) => writeln!(out, "no payload and no frame in the input"),
            (read, refused, bad) => {
                writeln!(out, "read {read}, refused {refused}, bad lines {bad}")
            }
        }
    }
}

// The payloads and frames of an open file, up to its end or to a read that fails. There are more turns than any file needs.
// Not inlined, so that its buffers take no stack from the caller's other reading.
#[inline(never)]
pub fn all<P: Eprint + AllocGlobal, R: Read, W: Write>(
    rt: &P,
    from: &mut R,
    out: &mut W,
) -> io::Result<()> {
    let mut input = Input::new();
    let mut buffer = [0u8; 65536];
    for _ in 0..u64::MAX {
        let n = read(rt, from, &mut buffer)?;
        if n == 0 {
            break;
        }
        for b in &buffer[..n] {
            input.byte(*b, out)?;
        }
    }
    input.close(out)
}
