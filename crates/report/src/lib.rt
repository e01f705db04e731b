// What is printed of two files, each a memory as it was saved, and the start of the program that compares them.
#![tactic(auto)]

mod lines;

ghost use Rattle.std.specs.Prelude.{◌≤◌, IfSome, length};

use comparing::Lines;
use files::saying::fail_missing;
use files::{Unread, name_of, read_file, word_count};
use lines::tell_line;
use screen::kept::Kept;
use std::env::Env;
use std::fs::Files;
use std::io;

// A file is read into so many bytes, the words of a memory.
const FILE_ROOM: usize = 8192;

// The first and the second file by the words of the command line; with the program's own name there are three.
const FIRST: usize = 1;

const SECOND: usize = 2;

const WORDS: usize = 3;

// A file's name has at most so many bytes.
const NAME_ROOM: usize = 4096;

// All that is printed of two memories, line by line to the last, many by one write.
#[tactic(auto, using(crate::proofs::Laws::telling))]
fn tell<P: Print>(rt: &P, first: &[u8], second: &[u8]) -> io::Result<()> {
    let mut kept = Kept::new();
    for line in Lines::new(first, second) {
        kept.make_room(rt)?;
        tell_line(rt, &mut kept, line)?;
    }
    kept.write(rt)
}

// Reads the file that a word of the command line names, and answers how long it is; nothing where it is not read, which is told already. Of one that is longer
// than the buffer nothing is lent: no bytes are as wrong a length as its own.
fn read<R: Env + Files, E: Print>(
    rt: &R,
    errors: &E,
    number: usize,
    file: &mut [u8],
) -> Option<usize>
    ensures { IfSome result (λ r. r ≤ length file.new) }
{
    let mut name = [0u8; NAME_ROOM];
    let end = name_of(rt, number, &mut name);
    match read_file(rt, errors, &name[..end], file) {
        Ok(count) => Some(count),
        Err(Unread::TooLong) => Some(0),
        Err(Unread::Missing) => {
            fail_missing(errors, &name[..end]);
            None
        }
        Err(Unread::Told) => None,
    }
}

fn compare<R: Env + Files + Print, E: Print>(rt: &R, errors: &E) -> io::Result<()> {
    let mut first = [0u8; FILE_ROOM];
    let Some(end) = read(rt, errors, FIRST, &mut first) else {
        return Ok(());
    };
    let mut second = [0u8; FILE_ROOM];
    let Some(behind) = read(rt, errors, SECOND, &mut second) else {
        return Ok(());
    };
    tell(rt, &first[..end], &second[..behind])
}

// Compares the two files that the command line names.
pub fn start<R: Env + Files + Print, E: Print>(rt: &R, errors: &E) -> io::Result<()> {
    if word_count(rt) == WORDS {
        return compare(rt, errors);
    }
    let _ = errors.write_all(b"usage: differ FIRST SECOND\n");
    Ok(())
}
