// What a script works on: the program's 8,200 words, how many of them a call is lent, what they were, and what is to be printed.
ghost use Rattle.std.specs.Prelude.{◌≤◌};
ghost use Rattle.lending.specs.Sizes.{buffer_words};

use lending::sizes::BUFFER_WORDS;
use model::{Answer, Refusal, map};
use screen::kept::Kept;
use std::io;

// Why an order is not carried out; or what the system said, which ends the script.
#[derive(Debug, Drop)]
pub enum Failure {
    NotAllowed,
    System(io::Error),
}

impl From<io::Error> for Failure {
    fn from(error: io::Error) -> Failure {
        Failure::System(error)
    }
}

#[derive(Drop)]
pub struct Desk<'a, R, E> {
    pub rt: &'a R,
    // the standard error
    pub errors: &'a E,
    pub m: [u8; BUFFER_WORDS],
    // the words as `changes` saw them last
    pub old: [u8; BUFFER_WORDS],
    pub lent: usize,
    pub kept: Kept,
    ghost within: { lent ≤ buffer_words },
}

impl<'a, R: Print, E> Desk<'a, R, E> {
    pub fn new(rt: &'a R, errors: &'a E) -> Self {
        Desk {
            rt,
            errors,
            m: [0; BUFFER_WORDS],
            old: [0; BUFFER_WORDS],
            lent: map::MEMORY_WORDS,
            kept: Kept::new(),
        }
    }

    // What is kept is written.
    pub fn write(&mut self) -> io::Result<()> {
        self.kept.write(self.rt)
    }

    pub fn answer(&mut self, given: Result<Answer, Refusal>) -> io::Result<()> {
        self.kept.make_room(self.rt)?;
        self.kept.answer(given);
        Ok(())
    }

    pub fn writing(&mut self, given: Result<usize, Refusal>) -> io::Result<()> {
        self.kept.make_room(self.rt)?;
        self.kept.writing(given);
        Ok(())
    }

    pub fn not_understood(&mut self, number: u64) -> io::Result<()> {
        self.kept.make_room(self.rt)?;
        self.kept.not_understood(number);
        Ok(())
    }

    pub fn not_allowed(&mut self) -> io::Result<()> {
        self.kept.make_room(self.rt)?;
        self.kept.not_allowed();
        Ok(())
    }
}
