// The reading of a script of any length: what is read ahead is taken line by line, and each line carried out. What is printed is kept, and written
// before more is read: who types sees each answer at once.
ghost use Rattle.std.specs.Prelude.{◌≤◌};
ghost use Rattle.console.specs.Sizes.{ahead_bytes};

use crate::desk::Desk;
use crate::sizes;
use std::fs::Files;
use std::io;
use std::io::Read;

// What is read and not yet carried out, the bytes to `end`; whether the line that they belong to has lost its beginning, being too long; and its number.
#[derive(Drop)]
struct Ahead {
    bytes: [u8; sizes::AHEAD_BYTES],
    end: usize,
    long: bool,
    number: u64,
    ghost inside: { end ≤ ahead_bytes },
}

impl Ahead {
    fn new() -> Ahead {
        Ahead {
            bytes: [0; sizes::AHEAD_BYTES],
            end: 0,
            long: false,
            number: 1,
        }
    }

    // Reads more, and answers how much came.
    fn fill<I: Read>(&mut self, input: &mut I) -> io::Result<usize> {
        let got = input.read(&mut self.bytes[self.end..])?;
        self.end += got;
        Ok(got)
    }

    // The lines that are there whole are carried out, and what is left of the last goes to the front.
    fn take_lines<R: Files + Print, E: Print>(
        &mut self,
        desk: &mut Desk<'_, R, E>,
    ) -> io::Result<()> {
        let all = &self.bytes[..self.end];
        let Some(last) = all.iter().rposition(|byte| *byte == b'\n') else {
            return Ok(());
        };
        for line in all[..last].split(|byte| *byte == b'\n') {
            if self.long {
                desk.not_understood(self.number)?;
            } else {
                desk.run_line(line, self.number)?;
            }
            self.long = false;
            self.number = self.number.wrapping_add(1);
        }
        self.bytes.copy_within(last + 1..self.end, 0);
        self.end -= last + 1;
        Ok(())
    }

    // Of a line that fills the buffer only its number is kept.
    fn drop_long(&mut self) {
        if self.end == sizes::AHEAD_BYTES {
            self.end = 0;
            self.long = true;
        }
    }

    // The input has ended: what is left is the last line, if there is any.
    fn take_last<R: Files + Print, E: Print>(
        &mut self,
        desk: &mut Desk<'_, R, E>,
    ) -> io::Result<()> {
        if self.long {
            return desk.not_understood(self.number);
        }
        if self.end == 0 {
            return Ok(());
        }
        desk.run_line(&self.bytes[..self.end], self.number)
    }
}

// Runs the script that `input` reads, to its end.
pub fn run<R: Files + Print, E: Print, I: Read>(
    desk: &mut Desk<'_, R, E>,
    input: &mut I,
) -> io::Result<()> {
    let mut ahead = Ahead::new();
    for _ in 0..u64::MAX {
        desk.write()?;
        if ahead.fill(input)? == 0 {
            break;
        }
        ahead.take_lines(desk)?;
        ahead.drop_long();
    }
    ahead.take_last(desk)?;
    desk.write()
}
