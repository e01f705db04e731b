// Deleting: "In order: leave any wait queue (not woken); leave the processor list; Q2 then Q1 from the front: .."; between the two, document 02's
// 3/13: what it sent and nobody has read is marked.
#![tactic(auto)]

ghost use Rattle.std.specs.Prelude.{◌≡◌, ◌<◌, eqb};
ghost use Rattle.model.specs.Map as Map;
ghost use Rattle.model.specs.Bytes as Model;

use mail::{Note, deliver, make_notice};
use model::{ControlPage, Memory, Name, map};
use pages::{give_back, grant};
use processors::{leave_wait, name, page_of};
use queues::{Queue, page_at};
use words::write;

// The processor that is deleted: its page, and its name.
#[derive(Clone, Copy)]
struct Leaving {
    page: ControlPage,
    name: Name,
    ghost name_fits: { name.0 < 16 },
}

impl Leaving {
    // It leaves any wait queue, not woken, and the processor list.
    #[tactic(auto, using(crate::proofs::Laws::unlisted_is))]
    fn unlist(self, m: &mut Memory)
        ensures { m.new ≡ Model.unlisted m.old self.page.0 }
    {
        leave_wait(m, self.page);
        Queue::processors().leave(m, self.page);
    }

    // Whether it sent the message.
    #[tactic(auto, using(crate::proofs::Laws::from_is))]
    fn sent(self, m: &Memory, message: ControlPage) -> bool
        ensures { result ≡ eqb (Model.sender m.now message.0) self.name.0 }
    {
        let note = message.word(m, map::NOTE);
        note / map::FIELD == self.name.0
    }

    // The message is marked, if it is unmarked mail that it sent.
    #[tactic(auto, using(crate::proofs::Laws::deletions))]
    fn mark(self, m: &mut Memory, message: ControlPage)
        ensures { m.new ≡ Model.marked m.old self.name.0 message.0 }
    {
        let size = message.word(m, map::SIZE);
        if size < map::MARK && self.sent(m, message) {
            message.store(m, map::SIZE, size + map::MARK);
        }
    }

    // Every message that hangs from the cell. The walk changes the memory that it goes through, so it goes by cells, and not along a `Walk`, which borrows it.
    fn mark_from(self, m: &mut Memory, header: u16)
        requires { header < 8192 }
        ensures { m.new ≡ Model.marked_from Map.control_pages m.old self.name.0 header }
    {
        let mut cell = header;
        for _ in 0..map::CONTROL_PAGES {
            let Some(message) = page_at(m, cell) else {
                return;
            };
            self.mark(m, message);
            cell = message.place(map::LINK);
        }
    }

    // Every message of Q1 and Q2 of the processor of the page.
    #[tactic(auto, using(crate::proofs::Laws::deletions))]
    fn mark_mail(self, m: &mut Memory, page: ControlPage)
        ensures { m.new ≡ Model.mail_marked m.old self.name.0 page.0 }
    {
        self.mark_from(m, page.place(map::Q1));
        self.mark_from(m, page.place(map::Q2));
    }

    // Of every processor on the list. This stays beside `mark_from`: a walk that both share would take a closure over the memory, and its contract the steps.
    fn mark_all(self, m: &mut Memory)
        ensures { m.new ≡ Model.all_marked Map.control_pages m.old self.name.0 Map.processor_list }
    {
        let mut cell = map::PROCESSOR_LIST;
        for _ in 0..map::CONTROL_PAGES {
            let Some(page) = page_at(m, cell) else {
                return;
            };
            self.mark_mail(m, page);
            cell = page.place(map::LIST_LINK);
        }
    }

    // Every message that it sent: of all processors on the list, and its own, which has left it.
    #[tactic(auto, using(crate::proofs::Laws::deletions))]
    fn mark_sent(self, m: &mut Memory)
        ensures { m.new ≡ Model.sent_marked m.old self.name.0 self.page.0 }
    {
        self.mark_all(m);
        self.mark_mail(m, self.page);
    }

    // The message becomes a notice from it to the message's sender.
    #[tactic(auto, unfolding(model::specs::Delete::noticed))]
    fn notify(self, m: &mut Memory, message: ControlPage, sender: ControlPage)
        ensures { m.new ≡ Model.noticed m.old self.name.0 message.0 sender.0 }
    {
        let flag = Note::of(message.word(m, map::NOTE)).flag;
        make_notice(
            m,
            message,
            Note {
                name: self.name,
                flag,
            },
        );
        deliver(m, sender, message);
    }

    // A message of its own: unmarked, it is a notice to its sender if there is one; else given back.
    #[tactic(auto, using(crate::proofs::Laws::deletions))]
    fn return_message(self, m: &mut Memory, message: ControlPage)
        ensures { m.new ≡ Model.returned m.old self.name.0 message.0 }
    {
        let size = message.word(m, map::SIZE);
        if map::MARK <= size {
            give_back(m, message);
            return;
        }
        let note = Note::of(message.word(m, map::NOTE));
        match page_of(m, note.name) {
            Some(sender) => self.notify(m, message, sender),
            None => give_back(m, message),
        }
    }

    // Every message of the queue of the header, from the front.
    fn empty(self, m: &mut Memory, header: u16)
        requires { header < 8192 }
        ensures { m.new ≡ Model.emptied Map.control_pages m.old self.name.0 header }
    {
        for _ in 0..map::CONTROL_PAGES {
            let Some(message) = page_at(m, header) else {
                return;
            };
            Queue::at(header).leave(m, message);
            self.return_message(m, message);
        }
    }

    // Q2 then Q1.
    #[tactic(auto, unfolding(model::specs::Delete::mail_returned))]
    fn return_mail(self, m: &mut Memory)
        ensures { m.new ≡ Model.mail_returned m.old self.name.0 self.page.0 }
    {
        self.empty(m, self.page.place(map::Q2));
        self.empty(m, self.page.place(map::Q1));
    }

    // What it sent is marked, then its mail is returned.
    #[tactic(auto, using(crate::proofs::Laws::deletions))]
    fn settle_mail(self, m: &mut Memory)
        ensures { m.new ≡ Model.mail_settled m.old self.name.0 self.page.0 }
    {
        self.mark_sent(m);
        self.return_mail(m);
    }

    // Its grant is given back.
    #[tactic(auto, using(crate::proofs::Laws::deletions))]
    fn return_grant(self, m: &mut Memory)
        ensures { m.new ≡ Model.grant_returned m.old self.name.0 }
    {
        let own = grant(self.name);
        if let Some(page) = page_at(m, own) {
            write(m, own, 0);
            give_back(m, page);
        }
    }
}

// The processor of the page is deleted.
#[tactic(auto, using(crate::proofs::Laws::delete_is))]
pub fn delete(m: &mut Memory, page: ControlPage)
    ensures { m.new ≡ Model.delete m.old page.0 }
{
    let leaving = Leaving {
        page,
        name: name(m, page),
    };
    leaving.unlist(m);
    leaving.settle_mail(m);
    leaving.return_grant(m);
    give_back(m, page);
}
