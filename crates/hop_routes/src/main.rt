//! Reads a script from standard input and prints what it found, a line for each thing done.
#![tactic(auto)]

use std::io;

fn main(rt: HostRuntime) -> io::Result<()> {
    session::run(&rt)
}
