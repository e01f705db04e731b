// Files' names as the system takes them, and what it says of a file, in its own words.
ghost use Rattle.std.specs.Prelude.{◌≡◌, IfOk};

use std::io;
use std::io::{Cursor, Error, Write};

// Linux's numbers of errors, on x86-64 and aarch64: there is no such file, a byte of the name is 0, the name is too long, the name is not UTF-8. They stay
// numbers, since the words that are printed of an `ErrorKind` are not the system's.
const NO_ENTRY: i32 = 2;

const INVALID: i32 = 22;

const NAME_TOO_LONG: i32 = 36;

const NOT_UTF_8: i32 = 84;

// A name that the system takes is at most so long.
const LONGEST_PATH: usize = 4095;

// What the system says of an error has at most so many bytes, its number included.
const WORDS_ROOM: usize = 128;

// The number that is written behind the system's words begins so.
const NUMBER: &str = " (os error ";

// A file's name as the system takes it.
pub fn path_of(name: &[u8]) -> io::Result<&str>
    ensures { IfOk result (λ path. path.now ≡ name.now) }
{
    if LONGEST_PATH < name.len() {
        return Err(Error::from_raw_os_error(NAME_TOO_LONG));
    }
    if name.contains(&0) {
        return Err(Error::from_raw_os_error(INVALID));
    }
    str::from_utf8(name).map_err(|_| Error::from_raw_os_error(NOT_UTF_8))
}

// The words of an error, without its number.
fn words(said: &[u8]) -> &[u8] {
    str::from_utf8(said)
        .ok()
        .and_then(|text| text.rsplit_once(NUMBER))
        .map_or(said, |(front, _)| front.as_bytes())
}

fn write_words<E: Print>(errors: &E, error: Error) -> io::Result<()> {
    let mut said = [0u8; WORDS_ROOM];
    let mut cursor = Cursor::new(&mut said[..]);
    write!(cursor, "{error}")?;
    let end = cursor.position() as usize;
    errors.write_all(words(&said[..end.min(WORDS_ROOM)]))
}

fn write_line<E: Print>(errors: &E, name: &[u8], error: Error) -> io::Result<()> {
    errors.write_all(name)?;
    errors.write_all(b": ")?;
    write_words(errors, error)?;
    errors.write_all(b"\n")
}

// An error of the system of which its line is written already.
#[derive(Clone, Copy, Debug, PartialEq, Eq)]
pub struct Told;

// A line of what the system says of the file with a name.
pub fn fail<E: Print>(errors: &E, name: &[u8], error: Error) -> Told {
    let _ = write_line(errors, name, error);
    Told
}

// The line of a file that is missing.
pub fn fail_missing<E: Print>(errors: &E, name: &[u8]) -> Told {
    fail(errors, name, Error::from_raw_os_error(NO_ENTRY))
}
