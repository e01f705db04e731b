// What a script does to the program's 8,200 words between calls: the host's store, looks, what has changed, how much is lent, and settings. Where nothing is
// printed at once, what is kept stays.
use crate::desk::{Desk, Failure};
use crate::sizes;
use lending::sizes::BUFFER_WORDS;
use lending::{fresh_from, write_in};
use model::map;
use script::Five;
use std::io;
use words::{guarded, low};

// Whether the host may store at an address: page 0 and unprotected words.
fn is_open(address: u16) -> bool {
    address < map::PAGE_SIZE || !guarded(address)
}

// So many words in a line, a space between two.
fn words_line<P: Print>(rt: &P, words: &[u8]) -> io::Result<()> {
    let mut space = "";
    for word in words {
        print!(rt; "{space}{word}")?;
        space = " ";
    }
    println!(rt; "")
}

impl<'a, R: Print, E> Desk<'a, R, E> {
    // The values go to any of the 8,200 words; nothing is stored where one is wrong.
    pub fn put_anywhere(&mut self, address: u16, values: &[u16]) -> Result<(), Failure> {
        let at = usize::from(address);
        let end = at + values.len();
        if BUFFER_WORDS < end || values.iter().any(|value| map::WORD_VALUES <= *value) {
            return Err(Failure::NotAllowed);
        }
        for (word, value) in self.m[at..end].iter_mut().zip(values) {
            *word = low(*value);
        }
        Ok(())
    }

    // The host's store.
    pub fn put(&mut self, address: u16, values: &[u16]) -> Result<(), Failure> {
        let end = usize::from(address) + values.len();
        if BUFFER_WORDS < end {
            return Err(Failure::NotAllowed);
        }
        if (address..end as u16).all(is_open) {
            return self.put_anywhere(address, values);
        }
        Err(Failure::NotAllowed)
    }

    // The words are written at once, behind what is kept.
    pub fn look(&mut self, address: u16, count: u16) -> Result<(), Failure> {
        let at = usize::from(address);
        let end = at + usize::from(count);
        if count == 0 || sizes::MOST_LOOKED_AT < count || BUFFER_WORDS < end {
            return Err(Failure::NotAllowed);
        }
        self.write()?;
        words_line(self.rt, &self.m[at..end])?;
        Ok(())
    }

    // The words that have changed are written at once, behind what is kept.
    pub fn changes(&mut self) -> io::Result<()> {
        self.write()?;
        for (at, (is, was)) in self.m.iter().zip(&self.old).enumerate() {
            if is != was {
                println!(self.rt; "{at} {was} {is}")?;
            }
        }
        let changed = self
            .m
            .iter()
            .zip(&self.old)
            .filter(|(is, was)| is != was)
            .count();
        self.old.copy_from_slice(&self.m);
        println!(self.rt; "changed {changed}")
    }

    // What is lent from now on.
    pub fn lend(&mut self, wanted: u16) -> Result<(), Failure> {
        let count = usize::from(wanted);
        if BUFFER_WORDS < count {
            return Err(Failure::NotAllowed);
        }
        self.lent = count;
        Ok(())
    }

    // `settings ADDRESS LENGTH`: the file stands in some of the 8,200 words, whatever is lent of them.
    pub fn settings(&mut self, address: u16, long: u16) -> Result<(), Failure> {
        let at = usize::from(address);
        let count = usize::from(long);
        if BUFFER_WORDS < at + count {
            return Err(Failure::NotAllowed);
        }
        let given = fresh_from(&mut self.m, self.lent, at, count);
        self.answer(given)?;
        Ok(())
    }

    // `write FILE ROOM USED BLOCK LENGTH`, likewise.
    pub fn write_settings(&mut self, wanted: Five) -> Result<(), Failure> {
        let file = usize::from(wanted.file);
        let room = usize::from(wanted.room);
        let used = usize::from(wanted.used);
        let block = usize::from(wanted.block);
        let long = usize::from(wanted.length);
        if BUFFER_WORDS < file + room || BUFFER_WORDS < block + long {
            return Err(Failure::NotAllowed);
        }
        let given = write_in(&mut self.m, file, room, used, block, long);
        self.writing(given)?;
        Ok(())
    }
}
