// The files of the programs: a word of the command line names one; it is read whole, and new contents take its place at once. What the system says of a file
// that cannot be read or written goes to `errors`, the standard error; where not even that can be written, nothing is said.
#![tactic(auto)]

pub mod laying;
pub mod saying;
mod sizes;

ghost use Rattle.std.specs.Prelude.{◌≡◌, ◌≤◌, IfOk, IfSome, length};
ghost use Rattle.files.specs.declared.Unread.TheVariants as Unread;
ghost use Rattle.files.specs.Files.{name_room};

use laying::lay_new_name;
use saying::{Told, fail, path_of};
use std::env::{Env, FillError};
use std::fs::{File, Files, OpenFile};
use std::io::{ErrorKind, Read, Write};
use std::{fs, io};

// Why a file is not read: it has more than the buffer; there is none; or it cannot be read, which is told already.
#[derive(Clone, Copy, Debug, PartialEq, Eq)]
pub enum Unread {
    TooLong,
    Missing,
    Told,
}

impl From<Told> for Unread {
    ghost from_gives = { λ t e. e ≡ Unread.Told };

    fn from(_told: Told) -> Unread {
        Unread::Told
    }
}

// How many words the command line has, the program's own name among them.
pub fn word_count<R: Env>(rt: &R) -> usize {
    (0..usize::MAX)
        .find(|number| is_behind_the_last(rt, *number))
        .unwrap_or(usize::MAX)
}

fn is_behind_the_last<R: Env>(rt: &R, number: usize) -> bool {
    matches!(rt.arg(number, &mut []), Err(FillError::NotPresent))
}

// A file's name as a word of the command line, by its number; the program's own name is word 0. Of one that is longer than the buffer as much as that holds,
// which the system takes for no name.
pub fn name_of<R: Env>(rt: &R, number: usize, name: &mut [u8]) -> usize
    ensures { result ≤ length name.new }
{
    let room = name.len();
    rt.arg(number, name).unwrap_or(room)
}

// Reads to the end of the file, and answers how many bytes it has; none where they are more than the buffer holds.
fn read_whole<F: Read>(input: &mut F, file: &mut [u8]) -> io::Result<Option<usize>>
    ensures { IfOk result (λ read. IfSome read (λ end. end ≤ length file.new)) }
{
    // A loop by hand: the library reads to the end into a Vec only, and there is no heap.
    let mut end = 0;
    while end < file.len() {
        let more = input.read(&mut file[end..])?;
        if more == 0 {
            return Ok(Some(end));
        }
        end += more;
    }
    // The buffer is full: whether the file ends there shows when one byte more is tried.
    let beyond = input.read(&mut [0u8; 1])?;
    Ok((beyond == 0).then_some(end))
}

// Whether a file that was not opened is missing. An empty name names none.
fn is_missing(name: &[u8], error: io::Error) -> bool {
    !name.is_empty() && error.kind() == ErrorKind::NotFound
}

fn open<R: Files>(rt: &R, name: &[u8]) -> io::Result<R::File> {
    File::open(rt, path_of(name)?)
}

// Reads the file with a name, and answers how many bytes it has.
pub fn read_file<R: Files, E: Print>(
    rt: &R,
    errors: &E,
    name: &[u8],
    file: &mut [u8],
) -> Result<usize, Unread>
    ensures { IfOk result (λ end. end ≤ length file.new) }
{
    let mut input = match open(rt, name) {
        Ok(input) => input,
        Err(error) if is_missing(name, error) => return Err(Unread::Missing),
        Err(error) => return Err(Unread::from(fail(errors, name, error))),
    };
    match read_whole(&mut input, file) {
        Ok(Some(end)) => Ok(end),
        Ok(None) => Err(Unread::TooLong),
        Err(error) => Err(Unread::from(fail(errors, name, error))),
    }
}

// The contents reach the disk.
fn store<F: Write + OpenFile>(output: &mut F, contents: &[u8]) -> io::Result<()> {
    output.write_all(contents)?;
    output.sync_all()
}

fn create<R: Files>(rt: &R, new: &[u8]) -> io::Result<R::File> {
    File::create(rt, path_of(new)?)
}

fn rename<R: Files>(rt: &R, new: &[u8], name: &[u8]) -> io::Result<()> {
    fs::rename(rt, path_of(new)?, path_of(name)?)
}

// The contents reach the disk in the new file, which then takes the place of the one with the name.
fn put_in_place<R: Files>(
    rt: &R,
    mut output: R::File,
    new: &[u8],
    name: &[u8],
    contents: &[u8],
) -> io::Result<()> {
    store(&mut output, contents)?;
    drop(output);
    rename(rt, new, name)
}

fn remove<R: Files>(rt: &R, new: &[u8]) -> io::Result<()> {
    fs::remove_file(rt, path_of(new)?)
}

// The contents go to the new file, which then takes the place of the one with the name. On an error, which is told, that one stays as it was, and the new
// file goes.
fn replace_by<R: Files, E: Print>(
    rt: &R,
    errors: &E,
    new: &[u8],
    name: &[u8],
    contents: &[u8],
) -> Result<(), Told> {
    let output = create(rt, new).map_err(|error| fail(errors, new, error))?;
    put_in_place(rt, output, new, name, contents).map_err(|error| {
        let told = fail(errors, new, error);
        let _ = remove(rt, new);
        told
    })
}

// New contents for the file with a name, by way of the name with `.new` behind it: a power cut leaves one of the two whole. On an error the file stays as it
// was.
pub fn replace<R: Files, E: Print>(
    rt: &R,
    errors: &E,
    name: &[u8],
    contents: &[u8],
) -> Result<(), Told>
    requires { length name.now ≤ name_room }
{
    let mut new = [0u8; sizes::NEW_NAME_ROOM];
    let end = lay_new_name(&mut new, name);
    replace_by(rt, errors, &new[..end], name, contents)
}
