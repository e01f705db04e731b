// The program that compares two memories.
#![tactic(auto)]

use std::io;

fn main(rt: HostRuntime) -> io::Result<()> {
    report::start(&rt, &rt.stderr())
}
