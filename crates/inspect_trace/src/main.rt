// The program inspect, which is run here with the argument --trace on a stream (args, stdin).
#![tactic(auto)]

use std::io;

fn main(rt: HostRuntime) -> io::Result<()> {
    inspect_run::run(&rt)
}
