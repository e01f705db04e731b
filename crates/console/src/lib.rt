// The script program: runs a script, from standard input or from a file, on one memory and prints what came of it.
#![tactic(auto)]

mod desk;
mod input;
mod memory;
mod orders;
mod sizes;

use desk::Desk;
use files::saying::{fail, path_of};
use files::word_count;
use input::run;
use std::env::Env;
use std::fs::{File, Files};
use std::io;
use std::io::Read;

// Runs the script that `input` reads.
fn run_script<R: Files + Print, E: Print, I: Read>(
    rt: &R,
    errors: &E,
    input: &mut I,
) -> io::Result<()> {
    run(&mut Desk::new(rt, errors), input)
}

fn open<R: Files>(rt: &R, name: &[u8]) -> io::Result<R::File> {
    File::open(rt, path_of(name)?)
}

// Runs the script in the file with a name. What the system says of one that cannot be opened goes to `errors`, the standard error.
fn run_named<R: Files + Print, E: Print>(rt: &R, errors: &E, name: &[u8]) -> io::Result<()> {
    match open(rt, name) {
        Ok(mut input) => run_script(rt, errors, &mut input),
        Err(error) => {
            fail(errors, name, error);
            Ok(())
        }
    }
}

// Runs the script in the file that the program's argument names.
fn run_file<R: Env + Files + Print, E: Print>(rt: &R, errors: &E) -> io::Result<()> {
    let mut name = [0u8; sizes::NAME_BYTES];
    let end = rt.arg(1, &mut name).unwrap_or(0);
    run_named(rt, errors, &name[..end])
}

// Runs the script on standard input, or in the file named by the one argument; the program's name counts as a word.
pub fn start<R: Env + Files + Input + Print, E: Print>(rt: &R, errors: &E) -> io::Result<()> {
    let count = word_count(rt);
    if count < 2 {
        return run_script(rt, errors, &mut rt.reader());
    }
    if count == 2 {
        return run_file(rt, errors);
    }
    let _ = errors.write_all(b"usage: wik [SCRIPT]\n");
    Ok(())
}
