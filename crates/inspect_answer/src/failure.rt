// What goes to standard error, and reads that may fail.
ghost use Rattle.std.specs.Prelude.{◌≤◌, length, IfOk};

use std::io;
use std::io::Read;

// Says what failed, and why: the system's words, without the error's number.
pub fn fail<P: Eprint + AllocGlobal>(rt: &P, what: &str, e: io::Error) -> io::Result<()> {
    let said = format!(in rt.alloc(); "{e}")?;
    let parts = said.as_str().split_once(" (os error ");
    let why = parts.map_or(said.as_str(), |(why, _)| why);
    eprintln!(rt; "{what}: {why}")
}

// How many bytes a read brought; 0 at the end, and for a read that fails, which is said.
pub fn read<P: Eprint + AllocGlobal, R: Read>(
    rt: &P,
    from: &mut R,
    buffer: &mut [u8],
) -> io::Result<usize>
    ensures { IfOk result (λ n. n ≤ length buffer.new) }
{
    match from.read(buffer) {
        Ok(n) => Ok(n),
        Err(e) => {
            fail(rt, "inspect: cannot read", e)?;
            Ok(0)
        }
    }
}
