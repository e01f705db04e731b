// The script program.
#![tactic(auto)]

use std::io;

fn main(rt: HostRuntime) -> io::Result<()> {
    console::start(&rt, &rt.stderr())
}
