// The player on the recorded run of docs/RECORDED.md.
#![tactic(auto)]

use std::io;

fn main(rt: HostRuntime) -> io::Result<()> {
    stream::play_standard_input(&rt)
}
