// The frames of a stream, one after another, and what is between them.
use crate::buffer::{ROOM, Stream};
use frame::{Frame, Scanned};
use inspect_answer::answer::refusal;
use inspect_answer::failure::read;
use inspect_answer::framed;
use inspect_line::{Digits, Fault, LONGEST};
use payload_util::Refusal;
use std::io;
use std::io::{Read, Write};

// What a line has while nobody sends.
const MARK: u8 = 0xFF;

// Bytes that no good frame has, from an offset on; with the refusal if the first of them begins a damaged one.
#[derive(Clone, Copy)]
struct Passed {
    offset: u64,
    refusal: Option<Refusal>,
    bytes: u64,
    marks: u64,
}

impl Passed {
    fn from(offset: u64, refusal: Option<Refusal>) -> Passed {
        Passed {
            offset,
            refusal,
            bytes: 0,
            marks: 0,
        }
    }

    fn add(&mut self, bytes: &[u8]) {
        let marks = bytes.iter().filter(|b| **b == MARK).count();
        self.bytes = self.bytes.saturating_add(bytes.len() as u64);
        self.marks = self.marks.saturating_add(marks as u64);
    }

    fn show<W: Write>(self, out: &mut W) -> io::Result<()> {
        if self.bytes == 0 {
            return Ok(());
        }
        write!(out, "offset {}: ", self.offset)?;
        if let Some(e) = self.refusal {
            write!(out, "damaged frame\n  ")?;
            refusal(e, &mut *out)?;
            write!(out, "  ")?;
        }
        let others = self.bytes.saturating_sub(self.marks);
        writeln!(
            out,
            "passed over: {} mark bytes FF, {others} other bytes",
            self.marks
        )
    }
}

// How many there were: bytes of good frames, and of what was passed over.
#[derive(Clone, Copy)]
struct Counts {
    frames: u64,
    framed: u64,
    damaged: u64,
    marks: u64,
    others: u64,
    bad: u64,
}

#[derive(Drop)]
struct Trace {
    digits: Digits,
    stream: Stream,
    // since the last good frame, or the last damaged one
    passed: Passed,
    counts: Counts,
    // for bytes that are shown
    space: [u8; LONGEST],
}

impl Trace {
    fn new() -> Trace {
        Trace {
            digits: Digits::new(),
            stream: Stream::new(),
            passed: Passed::from(0, None),
            counts: Counts {
                frames: 0,
                framed: 0,
                damaged: 0,
                marks: 0,
                others: 0,
                bad: 0,
            },
            space: [0; LONGEST],
        }
    }

    // Ends what was passed over, and begins it anew from here on.
    fn begin<W: Write>(&mut self, refusal: Option<Refusal>, out: &mut W) -> io::Result<()> {
        let [bytes, marks] = [self.passed.bytes, self.passed.marks];
        let others = bytes.saturating_sub(marks);
        self.counts.marks = self.counts.marks.saturating_add(marks);
        self.counts.others = self.counts.others.saturating_add(others);
        self.passed.show(out)?;
        self.passed = Passed::from(self.stream.offset, refusal);
        Ok(())
    }

    fn pass(&mut self, n: usize) {
        self.passed.add(self.stream.next(n));
        self.stream.pass(n);
    }

    fn frame<W: Write>(&mut self, frame: Frame, n: usize, out: &mut W) -> io::Result<()> {
        self.begin(None, &mut *out)?;
        self.counts.frames = self.counts.frames.saturating_add(1);
        self.counts.framed = self.counts.framed.saturating_add(n as u64);
        let offset = self.stream.offset;
        writeln!(out, "offset {offset}: frame, length {n}")?;
        let bytes = self.stream.next(n);
        framed::parts(frame, bytes, &mut self.space, out)?;
        self.stream.pass(n);
        self.passed = Passed::from(self.stream.offset, None);
        Ok(())
    }

    // One step through the stream; whether there was one.
    fn step<W: Write>(&mut self, ended: bool, out: &mut W) -> io::Result<bool> {
        match self.stream.look(ended) {
            Scanned::Read(frame, n) => self.frame(frame, n, out)?,
            Scanned::Damaged(e, n) => {
                self.counts.damaged = self.counts.damaged.saturating_add(1);
                self.begin(Some(e), out)?;
                self.pass(n);
            }
            Scanned::Other(n) => self.pass(n),
            Scanned::More(_) => return Ok(false),
        }
        Ok(true)
    }

    // All that can be said of the stream as far as it has come. Each step goes on by a byte at least.
    fn steps<W: Write>(&mut self, ended: bool, out: &mut W) -> io::Result<()> {
        for _ in 0..=ROOM {
            if !self.step(ended, &mut *out)? {
                break;
            }
        }
        self.stream.make_room();
        Ok(())
    }

    // All that can be said of the stream so far, of which no more comes.
    fn end_stream<W: Write>(&mut self, out: &mut W) -> io::Result<()> {
        self.steps(true, &mut *out)?;
        self.begin(None, out)
    }

    // What is wrong in a line, after what came before it. What is missing there breaks the stream: no frame goes on after it.
    fn complain<W: Write>(&mut self, fault: Fault, out: &mut W) -> io::Result<()> {
        self.end_stream(&mut *out)?;
        self.counts.bad = self.counts.bad.saturating_add(1);
        let [line, column] = [self.digits.line, self.digits.column];
        writeln!(out, "line {line}, column {column}: {fault}")
    }

    fn end_line<W: Write>(&mut self, out: &mut W) -> io::Result<()> {
        match self.digits.end() {
            Ok(()) => Ok(()),
            Err(fault) => self.complain(fault, out),
        }
    }

    // One more character of the input.
    fn character<W: Write>(&mut self, b: u8, out: &mut W) -> io::Result<()> {
        if b == b'\n' {
            self.end_line(out)?;
            self.digits.restart();
            return Ok(());
        }
        match self.digits.take(b) {
            Ok(None) => return Ok(()),
            Ok(Some(byte)) => self.stream.push(byte),
            Err(fault) => return self.complain(fault, out),
        }
        if self.stream.is_full() {
            self.steps(false, out)?;
        }
        Ok(())
    }

    // The end of the stream, and the counts.
    fn close<W: Write>(mut self, out: &mut W) -> io::Result<()> {
        self.end_line(&mut *out)?;
        self.end_stream(&mut *out)?;
        let c = self.counts;
        writeln!(
            out,
            "bytes {}: {} in {} frames, {} mark bytes FF, {} other bytes; damaged frames {}, bad lines {}",
            self.stream.offset, c.framed, c.frames, c.marks, c.others, c.damaged, c.bad
        )
    }
}

// The frames of an open file, up to its end or to a read that fails. There are more turns than any file needs.
// Not inlined, so that its buffers take no stack from the caller's other reading.
#[inline(never)]
pub fn all<P: Eprint + AllocGlobal, R: Read, W: Write>(
    rt: &P,
    from: &mut R,
    out: &mut W,
) -> io::Result<()> {
    let mut trace = Trace::new();
    let mut buffer = [0u8; 65536];
    for _ in 0..u64::MAX {
        let n = read(rt, from, &mut buffer)?;
        if n == 0 {
            break;
        }
        for b in &buffer[..n] {
            trace.character(*b, out)?;
        }
        trace.steps(false, out)?;
        out.flush()?;
    }
    trace.close(out)
}
