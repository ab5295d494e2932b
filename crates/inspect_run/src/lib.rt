// What the program inspect does with its arguments.
#![tactic(auto)]

use inspect_answer::failure::fail;
use inspect_answer::input;
use inspect_stream::trace;
use std::env::FillError;
use std::fs::File;
use std::io::{BufWriter, Read, Write};
use std::rt::{Env, Files};
use std::{io, str};

// What the input is.
#[derive(Clone, Copy)]
enum Sort {
    Lines,
    Stream,
}

fn help(rt: &impl Print) -> io::Result<()> {
    io::writer(rt).write_all(
        b"usage: inspect [FILE]\n       inspect --trace [FILE]\n\n\
          Shows OSDP payloads and frames in words. A line of FILE, or of standard input, is a payload: the word command or\n\
          reply, its code byte and its bytes in hex, with or without spaces; or the word frame and the bytes of a frame.\n\n    \
          command 69 00 00 02 05 05 02 00 64 00 01 01 00 01 01\n    \
          reply 50 00001A0012345680   # RAW of 26 bits\n    \
          frame 53 00 08 00 04 60 EB AA\n\n\
          Blank lines, and what stands after a #, are passed over. A line may have 65,547 bytes, one more than the library\n\
          takes of a payload.\n\n\
          Shown are the kind and the record, field by field; the strict check's first complaint for readers of the\n\
          second generation, and for those of the first where it is another one; the normalised bytes where they\n\
          differ; or the refusal: its row, its two numbers and what it means. Of a frame: what it says, and its payload\n\
          in the same way. A line that is neither is named with the column where it goes wrong, and the rest goes on.\n\n\
          With --trace the input is a stream, as a line tap gives it: bytes in hex, on as many lines as there are. Each\n\
          frame in it is shown with its offset. A damaged one is shown with its refusal, and the search goes on at the\n\
          next byte 53 after its first; bytes between frames are counted, mark bytes FF by themselves.\n",
    )
}

fn inspect<P: Print + Eprint + AllocGlobal, R: Read>(
    rt: &P,
    sort: Sort,
    from: &mut R,
) -> io::Result<()> {
    let mut out = BufWriter::with_capacity(rt.alloc(), 65536, io::writer(rt))?;
    match sort {
        Sort::Lines => input::all(rt, from, &mut out)?,
        Sort::Stream => trace::all(rt, from, &mut out)?,
    }
    out.flush()
}

// What is said of an argument that cannot be a file's name.
fn bad_name(rt: &impl Eprint, why: &str) -> io::Result<()> {
    eprintln!(rt; "inspect: bad file name: {why}")
}

fn inspect_file<P: Files + Print + Eprint + AllocGlobal>(
    rt: &P,
    sort: Sort,
    name: &[u8],
) -> io::Result<()> {
    let Ok(name) = str::from_utf8(name) else {
        return bad_name(rt, "not UTF-8");
    };
    if name.is_empty() {
        return bad_name(rt, "Success");
    }
    match File::open(rt, name) {
        Ok(mut file) => inspect(rt, sort, &mut file),
        Err(e) => {
            eprint!(rt; "inspect: cannot open ")?;
            fail(rt, name, e)
        }
    }
}

// An argument, in the space given: none, or one that is too long to be a file's name.
fn argument<'a>(rt: &impl Env, at: usize, space: &'a mut [u8]) -> Result<&'a [u8], FillError> {
    let n = rt.arg(at, &mut *space)?;
    Ok(&space[..n])
}

// A file by its name, or standard input where there is none.
fn named<P: Env + Files + Input + Print + Eprint + AllocGlobal>(
    rt: &P,
    sort: Sort,
    at: usize,
) -> io::Result<()> {
    let mut space = [0u8; 4096];
    match argument(rt, at, &mut space) {
        Ok(name) => inspect_file(rt, sort, name),
        Err(FillError::TooLong) => bad_name(rt, "File name too long"),
        Err(FillError::NotPresent) => inspect(rt, sort, &mut rt.reader()),
    }
}

// Not by `env::args`, which fails where any argument is not UTF-8, the program's own name too.
pub fn run<P: Env + Files + Input + Print + Eprint + AllocGlobal>(rt: &P) -> io::Result<()> {
    let mut space = [0u8; 8];
    let first = argument(rt, 1, &mut space);
    let (sort, at) = match first {
        Ok(b"--trace") => (Sort::Stream, 2),
        _ => (Sort::Lines, 1),
    };
    let mut more = [0u8; 1];
    if !matches!(argument(rt, at + 1, &mut more), Err(FillError::NotPresent)) {
        return eprintln!(rt; "inspect: one file at most; inspect --help says more");
    }
    if matches!(first, Ok(b"--help")) {
        return help(rt);
    }
    named(rt, sort, at)
}
