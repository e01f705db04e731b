// What the script program prints: lines that are kept, those of the answers, the state of a well-formed memory for a person to read, and what is broken of any
// other.
#![tactic(auto)]

pub mod broken;
pub mod kept;
mod lines;
mod rows;
mod tables;

use model::{Memory, Registers, map};
use processors::{name, running};
use rows::all_processors;
use std::io;
use tables::{all_codes, all_errors, all_grants, clock, free_pages};
use words::at;

fn runner<P: Print>(rt: &P, m: &Memory) -> io::Result<()> {
    let page = running(m);
    if page.0 == 0 {
        return println!(rt; "nobody runs: no processor is ready");
    }
    let who = name(m, page).0;
    let at = Registers::of(m, page).lr;
    println!(rt; "processor {who} runs, its next instruction is at {at}")
}

// The state of a well-formed memory.
pub fn state<P: Print>(rt: &P, m: &Memory) -> io::Result<()> {
    runner(rt, m)?;
    println!(rt; "\n  name  priority  state             LR    A  waits for")?;
    all_processors(rt, m)?;
    println!(rt; "")?;
    free_pages(rt, at(m, map::FREE_SEMAPHORE))?;
    all_grants(rt, m)?;
    clock(rt, m)?;
    all_codes(rt, m)?;
    all_errors(rt, m)
}
