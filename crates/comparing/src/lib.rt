// Compares two lent memories: what is printed of them, line by line. A cursor says how far the lines were told; each call gives the next line and the cursor
// behind it, until the end. Any two lists of bytes and any cursor get an answer.
#![tactic(auto)]

mod addresses;
mod letters;
mod names;

ghost use Rattle.std.specs.Prelude.{◌≡◌};
ghost use Rattle.std.specs.Iterator.{item_count};
ghost use Rattle.std.specs.Map.Iter.{TakesFirst};
ghost use Rattle.model.specs.Coded.{line_told};
ghost use Rattle.model.specs.Bytes as Model;
ghost use Rattle.comparing.specs.Cursors as Cursors;
ghost use Rattle.comparing.specs.Cursors.{step_told};

use crate::addresses::next_differing;
use crate::names::said;
use model::{Line, Memory, Name, Refusal, Side, map};
use std::marker::Model;
use telling::finding;

// How far the lines are told: not begun; the words before an address, and whether there was a line yet; what was against the first; the names before one, and
// whether there was a line yet; all. Kept, each flag: it says nothing of the number beside it, which is always there, and `next` answers of any cursor.
#[derive(Clone, Copy)]
pub enum Cursor {
    Start,
    Words(usize, bool),
    Second,
    Names(u8, bool),
    Over,
}

// Behind the last name.
const NAMES_END: u8 = 16;

// The lines of two memories that are left; a clause sees those.
#[derive(Drop)]
pub struct Lines<'m> {
    first: &'m [u8],
    second: &'m [u8],
    cursor: Cursor,
}

impl<'m> Model for Lines<'m> {
    ghost use Rattle.std.specs.Prelude.{List};
    ghost use Rattle.model.specs.Told.{Line};
    ghost use Rattle.comparing.specs.Cursors.{lines_from};

    ghost Value = { List Line };

    ghost view = { λ l. lines_from l.cursor l.first.now l.second.now };
}

impl<'m> Lines<'m> {
    // All that is printed of two lists of bytes.
    #[tactic(auto, using(crate::specs::Telling::from_start))]
    pub fn new(first: &'m [u8], second: &'m [u8]) -> Self
        ensures { result ≡ Model.lines first.now second.now }
    {
        Self {
            first,
            second,
            cursor: Cursor::Start,
        }
    }
}

impl<'m> Iterator for Lines<'m> {
    type Item = Line;

    ghost next_gives = { TakesFirst line_told };

    ghost remaining = { item_count (λ l. l) };

    fn next(&mut self) -> Option<Line> {
        let (line, behind) = next(self.first, self.second, self.cursor)?;
        self.cursor = behind;
        Some(line)
    }
}

// All is told; `same` where there was no line.
#[tactic(auto, unfolding(crate::specs::Cursors::ended, crate::specs::Cursors::step_told, model::specs::Coded::line_told))]
fn ended(told: bool) -> Option<(Line, Cursor)>
    ensures { step_told result ≡ Cursors.ended told }
{
    if told {
        return None;
    }
    Some((Line::Same, Cursor::Over))
}

// The first line of the names from one on; behind them, that all is told.
#[tactic(auto, using(crate::proofs::Laws::steps))]
fn names_step(first: &Memory, second: &Memory, from: u8, told: bool) -> Option<(Line, Cursor)>
    ensures { step_told result ≡ Cursors.names_step first.now second.now from told }
{
    for name in from..NAMES_END {
        if let Some(found) = said(first, second, Name(name)) {
            return Some((Line::Processor(name, found), Cursor::Names(name + 1, true)));
        }
    }
    ended(told)
}

// What is broken of the second; else the names.
#[tactic(auto, using(crate::proofs::Laws::steps))]
fn second_step(first: &Memory, second: &Memory, told: bool) -> Option<(Line, Cursor)>
    ensures { step_told result ≡ Cursors.second_step (Model.told_of second.now) first.now second.now told }
{
    match finding(second) {
        Ok(()) => names_step(first, second, map::FIRST_NAME, told),
        Err(broken) => Some((
            Line::Refused(Side::Second, Refusal::Broken(broken)),
            Cursor::Over,
        )),
    }
}

// Behind the words: what is broken of the first, of the second; else the names.
#[tactic(auto, using(crate::proofs::Laws::steps))]
fn judged_step(first: &Memory, second: &Memory, told: bool) -> Option<(Line, Cursor)>
    ensures { step_told result ≡ Cursors.judged_step first.now second.now told }
{
    match finding(first) {
        Ok(()) => second_step(first, second, told),
        Err(broken) => Some((
            Line::Refused(Side::First, Refusal::Broken(broken)),
            Cursor::Second,
        )),
    }
}

// The line of an address; at the end, what stands behind the words.
#[tactic(auto, using(crate::proofs::Laws::steps))]
fn word_step(first: &Memory, second: &Memory, at: usize, told: bool) -> Option<(Line, Cursor)>
    ensures { step_told result ≡ Cursors.word_step first.now second.now at told }
{
    if at < map::MEMORY_WORDS {
        let line = Line::Word(at as u16, first[at], second[at]);
        return Some((line, Cursor::Words(at + 1, true)));
    }
    judged_step(first, second, told)
}

// The first line of the words from an address on; a place behind them all is their end.
#[tactic(auto, using(crate::proofs::Laws::steps))]
fn words_step(first: &Memory, second: &Memory, from: usize, told: bool) -> Option<(Line, Cursor)>
    ensures { step_told result ≡ Cursors.words_step first.now second.now from told }
{
    if from < map::MEMORY_WORDS {
        let at = next_differing(first, second, from, map::MEMORY_WORDS - from);
        return word_step(first, second, at, told);
    }
    word_step(first, second, from, told)
}

// What is broken of the second, alone.
#[tactic(auto, using(crate::proofs::Laws::steps))]
fn against_step(second: &Memory) -> Option<(Line, Cursor)>
    ensures { step_told result ≡ Cursors.against_step (Model.told_of second.now) }
{
    match finding(second) {
        Ok(()) => None,
        Err(broken) => Some((
            Line::Refused(Side::Second, Refusal::Broken(broken)),
            Cursor::Over,
        )),
    }
}

// The next line of two memories of 8,192 words.
#[tactic(auto, unfolding(crate::specs::Cursors::whole_step, crate::specs::Cursors::step_told))]
fn whole_step(first: &Memory, second: &Memory, cursor: Cursor) -> Option<(Line, Cursor)>
    ensures { step_told result ≡ Cursors.whole_step cursor first.now second.now }
{
    match cursor {
        Cursor::Start => words_step(first, second, 0, false),
        Cursor::Words(from, told) => words_step(first, second, from, told),
        Cursor::Second => against_step(second),
        Cursor::Names(from, told) => names_step(first, second, from, told),
        Cursor::Over => None,
    }
}

// Where one has another length: that of the second, that of both.
#[tactic(auto, using(crate::proofs::Laws::lengths))]
fn size_step(second: &[u8]) -> Option<(Line, Cursor)>
    ensures { step_told result ≡ Cursors.size_step second.now }
{
    if second.len() == map::MEMORY_WORDS {
        return None;
    }
    Some((
        Line::Refused(Side::Second, Refusal::WrongLength),
        Cursor::Over,
    ))
}

#[tactic(auto, using(crate::proofs::Laws::lengths))]
fn sizes_step(first: &[u8], second: &[u8]) -> Option<(Line, Cursor)>
    ensures { step_told result ≡ Cursors.sizes_step first.now second.now }
{
    if first.len() == map::MEMORY_WORDS {
        return size_step(second);
    }
    Some((
        Line::Refused(Side::First, Refusal::WrongLength),
        Cursor::Second,
    ))
}

#[tactic(auto, unfolding(crate::specs::Cursors::cut_step, crate::specs::Cursors::step_told))]
fn cut_step(first: &[u8], second: &[u8], cursor: Cursor) -> Option<(Line, Cursor)>
    ensures { step_told result ≡ Cursors.cut_step cursor first.now second.now }
{
    match cursor {
        Cursor::Start => sizes_step(first, second),
        Cursor::Second => size_step(second),
        Cursor::Words(_, _) | Cursor::Names(_, _) | Cursor::Over => None,
    }
}

// The next line from a cursor on, and the cursor behind it. What it tells and what is left then are the lines that were left before.
#[tactic(auto, using(crate::proofs::Laws::telling))]
pub fn next(first: &[u8], second: &[u8], cursor: Cursor) -> Option<(Line, Cursor)>
    ensures { Cursors.gives (step_told result) first.now second.now ≡ Cursors.lines_from cursor first.now second.now }
{
    let Some(whole) = first.as_array() else {
        return cut_step(first, second, cursor);
    };
    let Some(other) = second.as_array() else {
        return cut_step(first, second, cursor);
    };
    whole_step(whole, other, cursor)
}
