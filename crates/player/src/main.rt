// Plays the records on standard input and prints a line for each.
#![tactic(auto)]

use std::io;

fn main(rt: HostRuntime) -> io::Result<()> {
    stream::play_standard_input(&rt)
}
