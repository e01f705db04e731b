// What is to be written is kept, so that many lines are one write. A line is put together from its pieces, and has room: `write!` answers a Result, and these
// lines cannot fail.
ghost use Rattle.std.specs.Prelude.{◌≡◌, ◌≤◌, ◌+◌, ◌++◌, ℕ, List, [], IfOk, OnErr, length};
ghost use Rattle.screen.specs.Sizes.{line_room, kept_room};

use arrayvec::ArrayVec;
use itoa::{Buffer, Integer};
use std::io;
use std::marker::Model;

// Room for so many bytes.
const KEPT_ROOM: usize = 4096;

// The line of an answer is at most so long. The longest is that of the registers; that its seven numbers have no more than five digits each is not
// counted on, only that no number has more than twenty.
const LINE_ROOM: usize = 160;

// The bytes that are kept.
#[derive(Drop)]
pub struct Kept {
    bytes: ArrayVec<u8, KEPT_ROOM>,
}

// Clauses see the bytes.
impl Model for Kept {
    ghost Value = { List ℕ };

    ghost view = { λ k. k.bytes.items };
}

impl Kept {
    pub fn new() -> Self
        ensures { result ≡ [] }
    {
        Kept {
            bytes: ArrayVec::new(),
        }
    }

    // What is kept is written; then nothing is. Where it cannot be written, it stays.
    pub fn write<P: Print>(&mut self, rt: &P) -> io::Result<()>
        ensures written { IfOk result (λ _. self.new ≡ []) }
        ensures err { OnErr result (self.new ≡ self.old) }
    {
        rt.write_all(self.bytes.as_slice())?;
        self.bytes.clear();
        Ok(())
    }

    // Room for a line: where too little is left, what is kept is written.
    pub fn make_room<P: Print>(&mut self, rt: &P) -> io::Result<()>
        ensures room { IfOk result (λ _. length self.new + line_room ≤ kept_room) }
        ensures err { OnErr result (self.new ≡ self.old) }
    {
        if LINE_ROOM <= self.bytes.remaining_capacity() {
            return Ok(());
        }
        self.write(rt)
    }

    pub fn text(&mut self, characters: &str)
        requires { length self.old + length characters.now ≤ kept_room }
        ensures bytes { self.new ≡ self.old ++ characters.now }
        ensures long { length self.new ≡ length self.old + length characters.now }
    {
        let _fits = self.bytes.try_extend_from_slice(characters.as_bytes());
    }

    pub fn number<I: Integer>(&mut self, value: I)
        requires { length self.old + I.MAX_STR_LEN ≤ kept_room }
        ensures bytes { self.new ≡ self.old ++ I.text value }
        ensures long { length self.new ≤ length self.old + I.MAX_STR_LEN }
    {
        let mut digits = Buffer::new();
        self.text(digits.format(value));
    }
}
