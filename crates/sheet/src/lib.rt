// The technician's program: shows the newest settings in a file, or writes a block into it from the words of the command line.
#![tactic(auto)]

mod building;
mod rows;
mod sizes;

ghost use Rattle.std.specs.Prelude.{◌≤◌, length};
ghost use Rattle.files.specs.Files.{name_room};

use building::{Block, NoBlock, finish, take_word};
use files::saying::fail_missing;
use files::{Unread, name_of, read_file, replace, word_count};
use model::Refusal;
use rows::tell_rows;
use screen::kept::Kept;
use settings::file::of_file;
use settings::write::write_settings;
use std::env::Env;
use std::fs::Files;
use std::io;

fn usage<E: Print>(errors: &E) {
    let _ = errors.write_all(
        b"usage: site FILE [VERSION LINE DIVIDER [SITE [LABEL]] NAME PRIORITY W ADDRESS ..]\n",
    );
}

// The line of a refusal.
fn tell_refusal<P: Print>(rt: &P, refusal: Refusal) -> io::Result<()> {
    let mut kept = Kept::new();
    kept.refused(refusal);
    kept.write(rt)
}

fn tell_writing<P: Print>(rt: &P, long: usize) -> io::Result<()> {
    let mut kept = Kept::new();
    kept.writing(Ok(long));
    kept.write(rt)
}

#[tactic(auto, using(crate::proofs::Laws::files))]
fn show<P: Print>(rt: &P, file: &[u8]) -> io::Result<()> {
    match of_file(file) {
        Ok(()) => tell_rows(rt, file),
        Err(refusal) => tell_refusal(rt, refusal),
    }
}

// The settings in the file with a name.
fn show_file<R: Files + Print, E: Print>(rt: &R, errors: &E, name: &[u8]) -> io::Result<()> {
    let mut file = [0u8; sizes::FILE_ROOM];
    match read_file(rt, errors, name, &mut file) {
        Ok(end) => show(rt, &file[..end]),
        Err(Unread::TooLong) => tell_refusal(rt, Refusal::NoRoom),
        Err(Unread::Missing) => {
            fail_missing(errors, name);
            Ok(())
        }
        Err(Unread::Told) => Ok(()),
    }
}

// A block behind the bytes in use; where it is refused, no file changes.
#[tactic(auto, using(crate::proofs::Laws::files))]
fn write_behind<R: Files + Print, E: Print>(
    rt: &R,
    errors: &E,
    name: &[u8],
    file: &mut [u8],
    used: usize,
    block: &[u8],
) -> io::Result<()>
    requires { length name.now ≤ name_room }
{
    match write_settings(file, used, block) {
        Ok(end) => {
            if replace(rt, errors, name, &file[..end]).is_ok() {
                return tell_writing(rt, end);
            }
            Ok(())
        }
        Err(refusal) => tell_refusal(rt, refusal),
    }
}

// A block into the file with a name, which need not be there.
fn write_file<R: Files + Print, E: Print>(
    rt: &R,
    errors: &E,
    name: &[u8],
    block: &[u8],
) -> io::Result<()>
    requires { length name.now ≤ name_room }
{
    let mut file = [0u8; sizes::FILE_ROOM];
    match read_file(rt, errors, name, &mut file) {
        Ok(used) => write_behind(rt, errors, name, &mut file, used, block),
        Err(Unread::TooLong) => tell_refusal(rt, Refusal::NoRoom),
        Err(Unread::Missing) => write_behind(rt, errors, name, &mut file, 0, block),
        Err(Unread::Told) => Ok(()),
    }
}

// One word of the command line. One that is too long to be read whole is no word of a block.
fn take_argument<R: Env>(rt: &R, block: &mut Block, number: usize) -> Result<(), NoBlock> {
    let mut word = [0u8; sizes::WORD_ROOM];
    match rt.arg(number, &mut word) {
        Ok(end) => take_word(block, &word[..end]),
        Err(_) => Err(NoBlock),
    }
}

// The block that the words of the command line build, those behind the file's name, of `count` in all.
fn block_of<R: Env>(rt: &R, count: usize) -> Result<Block, NoBlock> {
    let mut block = Block::new();
    for number in sizes::FIRST_WORD..count {
        take_argument(rt, &mut block, number)?;
    }
    finish(&mut block)?;
    Ok(block)
}

// The block that the words build goes into the file.
fn write_words<R: Env + Files + Print, E: Print>(
    rt: &R,
    errors: &E,
    name: &[u8],
    count: usize,
) -> io::Result<()>
    requires { length name.now ≤ name_room }
{
    match block_of(rt, count) {
        Ok(block) => write_file(rt, errors, name, block.as_slice()),
        Err(NoBlock) => {
            usage(errors);
            Ok(())
        }
    }
}

// Shows the file, or writes into it where more words stand behind its name; the program's own name counts as a word.
pub fn start<R: Env + Files + Print, E: Print>(rt: &R, errors: &E) -> io::Result<()> {
    let count = word_count(rt);
    if count < 2 {
        usage(errors);
        return Ok(());
    }
    let mut name = [0u8; sizes::NAME_ROOM];
    let end = name_of(rt, 1, &mut name);
    if count == 2 {
        return show_file(rt, errors, &name[..end]);
    }
    write_words(rt, errors, &name[..end], count)
}
