// A line of the input, taken byte by byte: `command` or `reply`, the code byte, and the payload, or `frame` and a frame; all bytes in hex.
#![tactic(auto)]

mod digits;

use arrayvec::ArrayVec;
pub use digits::Digits;
use osdp::Side;
use std::fmt;

// The most bytes of a payload or a frame that are taken: one above what the library takes of a payload, so that row 28 can be seen.
pub const LONGEST: usize = 65547;

// The most bytes of a wrong first word that are shown. One more is kept, which tells that the word is longer.
pub const WORD_SHOWN: usize = 20;

// What is wrong with a line.
#[derive(Clone, Copy, Debug, PartialEq, Eq)]
pub enum Fault {
    Word,
    NoCode,
    Code,
    Digit,
    Odd,
    TooLong,
}

// What stands before a payload.
#[derive(Clone, Copy, Debug, PartialEq, Eq)]
pub struct Head {
    pub side: Side,
    pub code: u8,
}

// What the bytes of a line are.
#[derive(Clone, Copy, Debug, PartialEq, Eq)]
pub enum Content {
    Payload(Head),
    Frame,
}

// What the next byte belongs to, and what is known by then.
#[derive(Clone, Copy, Debug, PartialEq, Eq)]
pub enum Place {
    Start,
    // the word, which began at this column
    Word(usize),
    // what is between the word and the code
    Gap(Side),
    // the second digit of the code, after this one
    Code(Side, u8),
    // the blank after the code
    Coded(Head),
    Bytes(Content),
    // the second digit of a byte, after this one
    Half(Content, u8),
    // the rest is passed over: nothing stood before it, a payload or a frame, or a fault
    Comment,
    Whole(Content),
    Bad(Fault),
}

// How far a line is.
#[derive(Clone, Copy, Debug, PartialEq, Eq)]
pub struct Line {
    // both count from 1; the column is that of the fault, once there is one
    pub number: usize,
    pub column: usize,
    pub place: Place,
}

// What was taken of a line.
#[derive(Drop)]
pub struct Taken {
    pub line: Line,
    // the payload or the frame, or before it the word
    bytes: ArrayVec<u8, LONGEST>,
}

// The digit's value, or what is wrong with a line that has no digit here.
fn digit(b: u8, fault: Fault) -> Result<u8, Fault> {
    char::from(b).to_digit(16).map(|d| d as u8).ok_or(fault)
}

fn is_blank(b: u8) -> bool {
    matches!(b, b' ' | b'\t' | b'\r')
}

// Before the code.
fn gap(side: Side, b: u8) -> Result<Place, Fault> {
    if is_blank(b) {
        return Ok(Place::Gap(side));
    }
    if b == b'#' {
        return Err(Fault::NoCode);
    }
    Ok(Place::Code(side, digit(b, Fault::Code)?))
}

fn code(side: Side, high: u8, b: u8) -> Result<Place, Fault> {
    let code = high << 4 | digit(b, Fault::Code)?;
    Ok(Place::Coded(Head { side, code }))
}

// Before a byte of the payload or of the frame.
fn bytes(content: Content, b: u8) -> Result<Place, Fault> {
    if is_blank(b) {
        return Ok(Place::Bytes(content));
    }
    if b == b'#' {
        return Ok(Place::Whole(content));
    }
    Ok(Place::Half(content, digit(b, Fault::Digit)?))
}

impl fmt::Display for Fault {
    fn fmt<W: fmt::Write>(&self, f: &mut fmt::Formatter<W>) -> fmt::Result {
        f.write_str(match self {
            Fault::Word => "the line has to begin with command, reply or frame, not with",
            Fault::NoCode => "no code byte after the word",
            Fault::Code => "the code byte has to have two hex digits",
            Fault::Digit => "not a hex digit",
            Fault::Odd => "half a byte, its second hex digit is missing",
            Fault::TooLong => "more than 65,547 bytes",
        })
    }
}

impl Line {
    ghost use Rattle.std.specs.Prelude.{◌≡◌};
    ghost use Rattle.inspect_line.specs.declared.Place.TheVariants.{Start};

    // A line of which nothing was taken yet.
    pub fn new(number: usize) -> Line
        ensures number { result.number ≡ number }
        ensures column { result.column ≡ 0 }
        ensures place { result.place ≡ Start }
    {
        Line {
            number,
            column: 0,
            place: Place::Start,
        }
    }
}

impl Taken {
    ghost use Rattle.std.specs.Prelude.{◌≡◌, ◌+◌, ◌-◌, ◌^◌, [], min};
    ghost use Rattle.inspect_line.specs.declared.Place.TheVariants.{Start};
    ghost use Rattle.inspect_line.specs.Line.{bytes_of};

    // The first line.
    pub fn new() -> Taken {
        Taken {
            line: Line::new(1),
            bytes: ArrayVec::new(),
        }
    }

    // Goes on to the next line, of which nothing was taken yet.
    pub fn restart(&mut self)
        ensures number { self.new.line.number ≡ min (self.old.line.number + 1) (2 ^ 64 - 1) }
        ensures column { self.new.line.column ≡ 0 }
        ensures place { self.new.line.place ≡ Start }
        ensures bytes { bytes_of self.new ≡ [] }
    {
        self.line = Line::new(self.line.number.saturating_add(1));
        self.bytes.clear();
    }

    // The payload or the frame; of a line that is wrong in its first word, that word.
    pub fn bytes(&self) -> &[u8]
        ensures { result.now ≡ bytes_of self.now }
    {
        self.bytes.as_slice()
    }

    fn start(&mut self, b: u8) -> Result<Place, Fault> {
        if is_blank(b) {
            return Ok(Place::Start);
        }
        if b == b'#' {
            return Ok(Place::Comment);
        }
        self.word(self.line.column, b)
    }

    fn word(&mut self, column: usize, b: u8) -> Result<Place, Fault> {
        if is_blank(b) {
            return self.named(column);
        }
        if self.bytes.len() <= WORD_SHOWN {
            self.bytes.push(b);
        }
        Ok(Place::Word(column))
    }

    // After the word.
    fn named(&mut self, column: usize) -> Result<Place, Fault> {
        let place = match self.bytes() {
            b"command" => Place::Gap(Side::Command),
            b"reply" => Place::Gap(Side::Reply),
            b"frame" => Place::Bytes(Content::Frame),
            _ => {
                self.line.column = column;
                return Err(Fault::Word);
            }
        };
        self.bytes.clear();
        Ok(place)
    }

    fn half(&mut self, content: Content, high: u8, b: u8) -> Result<Place, Fault> {
        if is_blank(b) {
            return Err(Fault::Odd);
        }
        let byte = high << 4 | digit(b, Fault::Digit)?;
        if self.bytes.is_full() {
            return Err(Fault::TooLong);
        }
        self.bytes.push(byte);
        Ok(Place::Bytes(content))
    }

    // What follows one more byte.
    fn next(&mut self, b: u8) -> Result<Place, Fault> {
        match self.line.place {
            Place::Start => self.start(b),
            Place::Word(column) => self.word(column, b),
            Place::Gap(side) => gap(side, b),
            Place::Code(side, high) => code(side, high, b),
            Place::Coded(head) if is_blank(b) => Ok(Place::Bytes(Content::Payload(head))),
            Place::Coded(_) => Err(Fault::Code),
            Place::Bytes(content) => bytes(content, b),
            Place::Half(content, high) => self.half(content, high, b),
            Place::Comment | Place::Whole(_) => Ok(self.line.place),
            Place::Bad(fault) => Err(fault),
        }
    }

    // Takes one more byte, which does not end the line.
    pub fn take(&mut self, b: u8) {
        if matches!(self.line.place, Place::Bad(_)) {
            return;
        }
        self.line.column = self.line.column.saturating_add(1);
        self.line.place = self.next(b).unwrap_or_else(Place::Bad);
    }

    // Ends the line, where a blank completes what it ends in: its place is then Bytes or Whole, Bad, or one that holds nothing.
    pub fn end(&mut self) {
        self.take(b' ');
        if matches!(self.line.place, Place::Gap(_)) {
            self.line.place = Place::Bad(Fault::NoCode);
        }
    }
}
