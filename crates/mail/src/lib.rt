// Sending: "A match on NI or flag 0 means any", what is written and read of a message, and the moves of mail.
#![tactic(auto)]

ghost use Rattle.std.specs.Prelude.{◌≡◌, ◌<◌};
ghost use Rattle.model.specs.Coded.{found};
ghost use Rattle.model.specs.Map as Map;
ghost use Rattle.model.specs.Queue.{first};
ghost use Rattle.model.specs.Mail as Mail;
ghost use Rattle.model.specs.Mail.Tested.{tested};
ghost use Rattle.model.specs.Bytes as Model;
ghost use Rattle.mail.specs.Head.{head_out};

use model::{ControlPage, Memory, Name, map};
use processors::{WaitQueue, name, running};
use queues::{Queue, page_at};
use words::{copy, wrapped, write};

// A name and a flag, as one word holds them: who sent a message and with which flag, or what is asked for, where 0 means any.
#[derive(Clone, Copy)]
pub struct Note {
    pub name: Name,
    pub flag: u8,
    ghost name_fits: { name.0 < 16 },
    ghost flag_fits: { flag < 16 },
}

impl Note {
    pub fn of(word: u8) -> Self
        ensures { (result.name.0 ≡ Map.upper word) × (result.flag ≡ Map.lower word) }
    {
        Self {
            name: Name(word / map::FIELD),
            flag: word % map::FIELD,
        }
    }

    pub fn word(self) -> u8
        ensures { result ≡ Map.pair self.name.0 self.flag }
    {
        self.name.0 * map::FIELD + self.flag
    }

    // Whether it asks for a message with that word 1.
    #[tactic(auto, using(crate::proofs::Laws::mails), unfolding(model::specs::Mail::fits))]
    pub fn fits(self, note: u8) -> bool
        ensures { result ≡ Mail.fits self.name.0 self.flag note }
    {
        asks(self.name.0, note / map::FIELD) && asks(self.flag, note % map::FIELD)
    }
}

// Whether what is given is what is asked for; 0 asks for any.
#[tactic(auto, using(model::proofs::Tests::tests), unfolding(model::specs::Mail::asks))]
fn asks(asked: u8, given: u8) -> bool
    ensures { result ≡ Mail.asks asked given }
{
    asked == 0 || asked == given
}

// Whether it asks for the message.
#[tactic(auto, unfolding(model::specs::Mail::matches))]
fn matches(m: &Memory, asked: Note, message: ControlPage) -> bool
    ensures { result ≡ Model.matches m.now asked.name.0 asked.flag message.0 }
{
    asked.fits(message.word(m, map::NOTE))
}

// The first match of the messages of a queue.
fn find_message(m: &Memory, asked: Note, queue: Queue) -> Option<ControlPage>
    ensures { result ≡ found (first (Model.matches m.now asked.name.0 asked.flag) (Model.walk Map.control_pages m.now queue.link queue.header)) }
{
    queue.pages(m).find(|message| matches(m, asked, *message))
}

// The first match in Q1, in Q2, of the running processor.
pub fn in_q1(m: &Memory, asked: Note) -> Option<ControlPage>
    ensures { result ≡ found (Model.in_q1 m.now asked.name.0 asked.flag) }
{
    find_message(m, asked, Queue::at(running(m).place(map::Q1)))
}

pub fn in_q2(m: &Memory, asked: Note) -> Option<ControlPage>
    ensures { result ≡ found (Model.in_q2 m.now asked.name.0 asked.flag) }
{
    find_message(m, asked, Queue::at(running(m).place(map::Q2)))
}

// Whether the processor of the page waits for the message.
#[tactic(auto, using(crate::proofs::Laws::mails), unfolding(model::specs::Mail::awaits))]
pub fn awaits(m: &Memory, page: ControlPage, message: ControlPage) -> bool
    ensures { result ≡ Model.awaits m.now page.0 message.0 }
{
    page.word(m, map::OWN_QUEUE) != 0 && matches(m, Note::of(page.word(m, map::REASON)), message)
}

// It wakes if it waits for the message.
#[tactic(auto, using(crate::proofs::Laws::mails))]
fn heard(m: &mut Memory, page: ControlPage, message: ControlPage)
    ensures { m.new ≡ Model.heard m.old page.0 message.0 }
{
    if awaits(m, page, message) {
        WaitQueue::own(page).wake(m, page);
    }
}

// The message joins Q1 of the processor of the page, which wakes if it waits for it.
#[tactic(auto, unfolding(model::specs::Mail::deliver))]
pub fn deliver(m: &mut Memory, page: ControlPage, message: ControlPage)
    ensures { m.new ≡ Model.deliver m.old page.0 message.0 }
{
    Queue::at(page.place(map::Q1)).join(m, message);
    heard(m, page, message);
}

// The page becomes the running processor's message, with the text of that size from the address on.
#[tactic(auto, using(crate::proofs::Laws::mails))]
pub fn write_message(m: &mut Memory, page: ControlPage, flag: u8, address: u16, size: u8)
    requires { (flag < 16) × (address < 8192) }
    ensures { m.new ≡ Model.write_message m.old page.0 flag address size }
{
    let note = Note {
        name: name(m, running(m)),
        flag,
    };
    page.store(m, map::NOTE, note.word());
    page.store(m, map::SIZE, size);
    copy(m, address, page.place(map::TEXT), size);
}

// The page becomes a notice with that sender and flag.
#[tactic(auto, unfolding(model::specs::Mail::make_notice))]
pub fn make_notice(m: &mut Memory, page: ControlPage, note: Note)
    ensures { m.new ≡ Model.make_notice m.old page.0 note.name.0 note.flag }
{
    page.store(m, map::NOTE, note.word());
    page.store(m, map::SIZE, map::NOTICE);
}

// The message goes from Q1 of the processor of the page to the end of its Q2.
pub fn move_message(m: &mut Memory, page: ControlPage, message: ControlPage)
    ensures { m.new ≡ Model.move m.old page.0 message.0 }
{
    Queue::at(page.place(map::Q1)).leave(m, message);
    Queue::at(page.place(map::Q2)).join(m, message);
}

// The messages of Q1 are tested in order, at most so many, and go to Q2, the first match too; whether there is one.
pub fn test_q1(m: &mut Memory, page: ControlPage, asked: Note, left: u8) -> bool
    ensures { tested result m.new ≡ Model.test_q1 left m.old page.0 asked.name.0 asked.flag }
{
    for _ in 0..left {
        let Some(message) = page_at(m, page.place(map::Q1)) else {
            return false;
        };
        let fits = matches(m, asked, message);
        move_message(m, page, message);
        if fits {
            return true;
        }
    }
    false
}

// Sender, flag and length of the message go to the address on.
#[tactic(auto, using(crate::proofs::Laws::mails))]
fn copy_head(m: &mut Memory, message: ControlPage, address: u16)
    requires { address < 8192 }
    ensures { m.new ≡ head_out m.old message.0 address }
{
    let note = Note::of(message.word(m, map::NOTE));
    let size = message.word(m, map::SIZE);
    write(m, address, note.name.0);
    write(m, wrapped(address, 1), note.flag);
    write(m, wrapped(address, 2), size % map::MARK);
}

// And its text behind them.
#[tactic(auto, unfolding(model::specs::Mail::copy_out))]
pub fn copy_out(m: &mut Memory, message: ControlPage, address: u16)
    requires { address < 8192 }
    ensures { m.new ≡ Model.copy_out m.old message.0 address }
{
    let size = message.word(m, map::SIZE) % map::MARK;
    copy_head(m, message, address);
    copy(
        m,
        message.place(map::TEXT),
        wrapped(address, map::HEAD_WORDS_WIDE),
        size,
    );
}
