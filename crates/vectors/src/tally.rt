// How many cases there were and how many differ.
use crate::stream::Head;
use std::io;

// How many of the cases that differ are named.
const NAMED: u64 = 10;

#[derive(Clone, Copy, Debug, PartialEq, Eq)]
pub enum State {
    Running,
    Done,
    // something is wrong with the stream, and it was said
    Broken,
}

#[derive(Clone, Copy, Debug, PartialEq, Eq)]
pub struct Tally {
    pub cases: u64,
    pub differ: u64,
    // cases since the stream began, or since the last record that ended a stream
    pub since: usize,
    pub state: State,
}

impl Tally {
    pub fn new() -> Tally {
        Tally {
            cases: 0,
            differ: 0,
            since: 0,
            state: State::Running,
        }
    }

    // Says what is wrong with the case after those that were run, and stops there.
    pub fn broken(&mut self, rt: &impl Print, why: &str) -> io::Result<()> {
        rt.print("broken at case ")?;
        say(rt, self.cases.wrapping_add(1), ": ")?;
        rt.print(why)?;
        self.state = State::Broken;
        Ok(())
    }

    pub fn unfit(&mut self, rt: &impl Print) -> io::Result<()> {
        self.broken(rt, "it does not fit\n")
    }

    pub fn unknown(&mut self, rt: &impl Print, class: u8) -> io::Result<()> {
        self.broken(rt, "class ")?;
        say(rt, u64::from(class), " is unknown\n")
    }

    // After a read that brought nothing more.
    pub fn finished(&mut self, rt: &impl Print, unread: usize) -> io::Result<()> {
        if 0 < unread || 0 < self.since {
            return self.broken(rt, "the stream ends before it, or in it\n");
        }
        self.state = State::Done;
        Ok(())
    }

    // After a record that ends a stream.
    pub fn ended(&mut self, rt: &impl Print, h: Head) -> io::Result<()> {
        if self.since != h.argument {
            return self.broken(rt, "the stream ends, and had another number of cases\n");
        }
        self.since = 0;
        Ok(())
    }

    // After one more case.
    pub fn after(&mut self, rt: &impl Print, h: Head, is_same: bool) -> io::Result<()> {
        self.cases = self.cases.wrapping_add(1);
        self.since = self.since.wrapping_add(1);
        if !is_same {
            self.differ = self.differ.wrapping_add(1);
            if self.differ <= NAMED {
                return name(rt, self.cases, h);
            }
        }
        Ok(())
    }

    // A broken stream has no total.
    pub fn print(self, rt: &impl Print) -> io::Result<()> {
        if self.state == State::Broken {
            return Ok(());
        }
        say(rt, self.cases, " cases, ")?;
        say(rt, self.differ, " differ\n")
    }
}

fn say(rt: &impl Print, n: u64, what: &str) -> io::Result<()> {
    print!(rt; "{n}{what}")
}

// Names a case that differs.
fn name(rt: &impl Print, number: u64, h: Head) -> io::Result<()> {
    let class = h.class;
    let code = h.code;
    println!(rt; "case {number} differs: class {class}, code 0x{code:02x}")
}
