// Reads cases with their answers from standard input, replays them on the library, and says how many differ. README.md has the format.
#![tactic(auto)]

mod case;
mod stream;
mod tally;

use crate::stream::{Entry, MOST, Space, Unfit};
use crate::tally::{State, Tally};
use std::io;
use std::io::Read;

// The class of the record that ends a stream, whose argument is the number of cases before it.
const END: u8 = 255;

// How many more bytes a case's buffer has than its input and its output together.
const MORE: usize = 256;

// The longest buffer of a case.
const LONGEST: usize = MOST + MORE;

// Runs a case.
fn whole(rt: &impl Print, e: Entry, out: &mut [u8], tally: &mut Tally) -> io::Result<()> {
    let n = e
        .input
        .len()
        .saturating_add(e.want.len())
        .saturating_add(MORE);
    let Some(out) = out.get_mut(..n) else {
        return tally.unfit(rt);
    };
    tally.after(rt, e.head, case::run(e, out))
}

fn by_class(rt: &impl Print, e: Entry, out: &mut [u8], tally: &mut Tally) -> io::Result<()> {
    match e.head.class {
        0..=case::LAST => whole(rt, e, out, tally),
        END => tally.ended(rt, e.head),
        class => tally.unknown(rt, class),
    }
}

// A stream that is replayed: the space that it is read into, the buffer that cases write to, and what was found so far.
#[derive(Drop)]
struct Replay {
    space: Space,
    out: [u8; LONGEST],
    tally: Tally,
}

impl Replay {
    // One case, one read, or the end.
    fn turn<R: Read>(&mut self, rt: &impl Print, input: &mut R) -> io::Result<()> {
        match self.space.take() {
            Ok(Some(e)) => by_class(rt, e, &mut self.out, &mut self.tally),
            Ok(None) => match self.space.refill(input)? {
                0 => self.tally.finished(rt, self.space.unread()),
                _ => Ok(()),
            },
            Err(Unfit) => self.tally.unfit(rt),
        }
    }

    // Takes turns until the stream is done. There are more turns than any stream needs.
    fn all<R: Read>(&mut self, rt: &impl Print, input: &mut R) -> io::Result<()> {
        for _ in 0..u64::MAX {
            self.turn(rt, input)?;
            if self.tally.state != State::Running {
                break;
            }
        }
        Ok(())
    }
}

fn main(rt: HostRuntime) -> io::Result<()> {
    let mut replay = Replay {
        space: Space::new(),
        out: [0; LONGEST],
        tally: Tally::new(),
    };
    replay.all(&rt, &mut rt.stdin())?;
    replay.tally.print(&rt)
}
