// Instructions: SME, WNM, RME and TME. The length is what LR grows by.
#![tactic(auto)]

ghost use Rattle.std.specs.Prelude.{◌≡◌, ◌<◌};
ghost use Rattle.model.specs.Answer.Outcome.{gives};
ghost use Rattle.model.specs.Coded.{answered};
ghost use Rattle.model.specs.Bytes as Model;

use answers::{done, fault, jump, wait, wait_for_page};
use mail::{
    Note, copy_out, deliver, in_q1, in_q2, make_notice, move_message, test_q1, write_message,
};
use model::{Answer, ControlPage, Fault, Memory, map};
use pages::{give_back, take_page};
use processors::{WaitQueue, page_of, running};
use queues::Queue;
use words::{at, clear, guarded, wrapped};

// The page is posted to the processor of that name, with the text of that size behind the address; where there is none, it comes back as a notice.
#[tactic(auto, using(crate::proofs::Laws::posts))]
fn post(m: &mut Memory, page: ControlPage, note: Note, address: u16, size: u8)
    requires { address < 8192 }
    ensures { m.new ≡ Model.posted m.old page.0 note.name.0 note.flag address size }
{
    match page_of(m, note.name) {
        Some(receiver) => {
            write_message(m, page, note.flag, wrapped(address, 1), size);
            deliver(m, receiver, page);
        }
        None => {
            let sender = running(m);
            make_notice(m, page, note);
            deliver(m, sender, page);
        }
    }
}

// A page is taken and posted; with none, the runner waits for one. CRP has the same `match`: a function that both share would take a closure over the
// memory, and its clauses be no plainer.
#[tactic(auto, using(pages::proofs::Laws::page_none), unfolding(model::specs::Operate::sent))]
fn send(m: &mut Memory, note: Note, address: u16, size: u8, length: u16) -> Answer
    requires { (address < 8192) × (length < 8192) }
    ensures { gives (answered result) m.new ≡ Model.sent m.old note.name.0 note.flag address size length }
{
    let runner = running(m);
    match take_page(m, runner) {
        Some(page) => {
            post(m, page, note, address, size);
            done(m, length)
        }
        None => wait_for_page(m),
    }
}

#[tactic(auto, using(crate::proofs::Laws::texts), unfolding(model::specs::Coded::fault_number))]
fn sme_text(m: &mut Memory, note: Note, address: u16, length: u16) -> Answer
    requires { (address < 8192) × (length < 8192) }
    ensures { gives (answered result) m.new ≡ Model.sme_text m.old note.name.0 note.flag address length }
{
    let size = at(m, address);
    if map::LONGEST < size {
        return fault(m, Fault::BadArgument);
    }
    if clear(size, wrapped(address, 1)) {
        return send(m, note, address, size, length);
    }
    fault(m, Fault::Protected)
}

#[tactic(auto, using(processors::proofs::Ways::ways), unfolding(model::specs::Operate::sme, model::specs::Coded::fault_number))]
pub fn sme(m: &mut Memory, note: Note, address: u16, length: u16) -> Answer
    requires { (address < 8192) × (length < 8192) }
    ensures { gives (answered result) m.new ≡ Model.sme m.old note.name.0 note.flag address length }
{
    if note.name.0 == 0 {
        return fault(m, Fault::BadArgument);
    }
    if note.flag == 0 {
        return fault(m, Fault::BadArgument);
    }
    if guarded(address) {
        return fault(m, Fault::Protected);
    }
    sme_text(m, note, address, length)
}

#[tactic(auto, using(crate::proofs::Laws::waits_or_moves))]
pub fn wnm(m: &mut Memory, asked: Note, length: u16) -> Answer
    requires { length < 8192 }
    ensures { gives (answered result) m.new ≡ Model.wnm m.old asked.name.0 asked.flag length }
{
    let runner = running(m);
    match in_q1(m, asked) {
        Some(message) => {
            move_message(m, runner, message);
            done(m, length)
        }
        None => wait(m, WaitQueue::own(runner), asked.word()),
    }
}

// The message is read: copied out, unlinked, its page given back.
#[tactic(auto, using(crate::proofs::Laws::received_is))]
fn receive(m: &mut Memory, message: ControlPage, address: u16)
    requires { address < 8192 }
    ensures { m.new ≡ Model.received m.old message.0 address }
{
    let runner = running(m);
    copy_out(m, message, address);
    Queue::at(runner.place(map::Q2)).leave(m, message);
    give_back(m, message);
}

#[tactic(auto, using(crate::proofs::Laws::reads), unfolding(model::specs::Coded::fault_number))]
pub fn rme(m: &mut Memory, asked: Note, address: u16, length: u16) -> Answer
    requires { (address < 8192) × (length < 8192) }
    ensures { gives (answered result) m.new ≡ Model.rme m.old asked.name.0 asked.flag address length }
{
    let Some(message) = in_q2(m, asked) else {
        return fault(m, Fault::NoMatch);
    };
    let size = message.word(m, map::SIZE);
    if clear(map::HEAD_WORDS + size % map::MARK, address) {
        receive(m, message, address);
        return done(m, length);
    }
    fault(m, Fault::Protected)
}

#[tactic(auto, using(crate::proofs::Laws::tests))]
fn tme_q1(m: &mut Memory, asked: Note, address: u16, length: u16) -> Answer
    requires { length < 8192 }
    ensures { gives (answered result) m.new ≡ Model.tme_q1 m.old asked.name.0 asked.flag address length }
{
    let runner = running(m);
    if test_q1(m, runner, asked, map::CONTROL_PAGES) {
        return jump(m, address);
    }
    done(m, length)
}

#[tactic(auto, using(crate::proofs::Laws::looks))]
pub fn tme(m: &mut Memory, asked: Note, address: u16, length: u16) -> Answer
    requires { length < 8192 }
    ensures { gives (answered result) m.new ≡ Model.tme m.old asked.name.0 asked.flag address length }
{
    match in_q2(m, asked) {
        Some(_) => jump(m, address),
        None => tme_q1(m, asked, address, length),
    }
}
