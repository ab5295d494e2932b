// Shows payloads and frames in words: reads lines such as `command 69 00 00 ..` or a stream from standard input or from a file.
#![tactic(auto)]

use std::io;

fn main(rt: HostRuntime) -> io::Result<()> {
    inspect_run::run(&rt)
}
