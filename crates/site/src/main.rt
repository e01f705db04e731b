// The technician's program.
#![tactic(auto)]

use std::io;

fn main(rt: HostRuntime) -> io::Result<()> {
    sheet::start(&rt, &rt.stderr())
}
