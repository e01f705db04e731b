// What is said of a name: "processors present in only one, and for names in both whether state, priority or any queue's content differs".
ghost use Rattle.std.specs.Prelude.{◌≡◌, eqb};
ghost use Rattle.model.specs.Lists.{hit};
ghost use Rattle.model.specs.Coded.{said_told};
ghost use Rattle.model.specs.Differ as Differ;
ghost use Rattle.model.specs.Bytes as Model;

use crate::letters::same_mail;
use model::{ControlPage, Memory, Name, Parts, Said, Side, State, map};
use processors::{page_of, priority, running, seat};

// A queue that no semaphore outside a processor's page stands for: one's own message wait, and none.
const FOR_MESSAGE: u16 = 1;

const NO_QUEUE: u16 = 0;

#[tactic(auto, using(crate::proofs::Laws::queue_low, crate::proofs::Laws::queue_high))]
fn queue_at(semaphore: u16) -> u16
    ensures { result ≡ Differ.queue_at semaphore }
{
    if semaphore <= map::FREE_SEMAPHORE {
        return semaphore;
    }
    FOR_MESSAGE
}

// The queue that the processor of a page waits in.
#[tactic(auto, using(crate::proofs::Laws::queue_in, crate::proofs::Laws::queue_out))]
fn queue_of(m: &Memory, page: ControlPage) -> u16
    ensures { result ≡ Model.queue_of m.now page.0 }
{
    let wait = seat(m, page, map::INTERRUPTS);
    if wait.holds(m, page) {
        return queue_at(wait.semaphore);
    }
    NO_QUEUE
}

// 1 if the processor of a page is the one that runs.
#[tactic(auto, using(crate::proofs::Laws::runs_is))]
fn runs(m: &Memory, page: ControlPage) -> u8
    ensures { result ≡ hit (eqb (Model.running m.now) page.0) }
{
    u8::from(running(m).0 == page.0)
}

#[tactic(auto, using(crate::proofs::Laws::state_is))]
fn state_of(m: &Memory, page: ControlPage) -> State
    ensures { result ≡ Model.state_of m.now page.0 }
{
    let bits = page.word(m, map::STATE);
    State {
        stopped: bits / map::STOP_BIT,
        waiting: bits % map::STOP_BIT / map::WAIT_BIT,
        runs: runs(m, page),
        queue: queue_of(m, page),
        reason: page.word(m, map::REASON),
    }
}

// Whether two processors wait alike.
#[tactic(auto, using(model::proofs::Tests::tests), unfolding(model::specs::Differ::same_wait))]
fn same_wait(s: State, t: State) -> bool
    ensures { result ≡ Differ.same_wait s t }
{
    s.queue == t.queue && s.reason == t.reason
}

#[tactic(auto, using(model::proofs::Tests::tests), unfolding(model::specs::Differ::same_state))]
fn same_state(s: State, t: State) -> bool
    ensures { result ≡ Differ.same_state s t }
{
    s.stopped == t.stopped && (s.waiting == t.waiting && (s.runs == t.runs && same_wait(s, t)))
}

#[tactic(auto, using(crate::proofs::Laws::parts_are))]
fn differences(first: &Memory, p: ControlPage, second: &Memory, q: ControlPage) -> Parts
    ensures { result ≡ Model.differences first.now p.0 second.now q.0 }
{
    Parts {
        state: !same_state(state_of(first, p), state_of(second, q)),
        priority: priority(first, p) != priority(second, q),
        q1: !same_mail(first, p.place(map::Q1), second, q.place(map::Q1)),
        q2: !same_mail(first, p.place(map::Q2), second, q.place(map::Q2)),
    }
}

// What is said of two processors of one name that differ so.
#[tactic(auto, unfolding(model::specs::Differ::differs_in, model::specs::Coded::said_told))]
fn differs_in(parts: Parts) -> Option<Said>
    ensures { said_told result ≡ Differ.differs_in parts }
{
    if parts.state || parts.priority || parts.q1 || parts.q2 {
        return Some(Said::DiffersIn(parts));
    }
    None
}

#[tactic(auto, using(crate::proofs::Laws::sayings))]
pub fn said(first: &Memory, second: &Memory, name: Name) -> Option<Said>
    ensures { said_told result ≡ Model.said first.now second.now name.0 }
{
    match (page_of(first, name), page_of(second, name)) {
        (None, None) => None,
        (None, Some(_)) => Some(Said::OnlyIn(Side::Second)),
        (Some(_), None) => Some(Said::OnlyIn(Side::First)),
        (Some(p), Some(q)) => differs_in(differences(first, p, second, q)),
    }
}
