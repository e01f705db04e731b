// Memory map: "Processor page": names, state bits, LR, waiting and waking. A wait queue is known by the address of its semaphore; its header is
// the next word.
#![tactic(auto)]

ghost use Rattle.std.specs.Prelude.{◌≡◌, ◌<◌, ◌≤◌, ◌+◌};
ghost use Rattle.model.specs.Coded.{found};
ghost use Rattle.model.specs.Map as Map;
ghost use Rattle.model.specs.Bytes as Model;

use model::{ControlPage, Memory, Name, Registers, map, wide};
use queues::{Queue, find_page};
use words::{at, lowered, raised, write};

// The running processor's page; page 0: nobody runs. It is no Option, since the model reads and writes words of page 0 there (`advance`, `fault`).
pub fn running(m: &Memory) -> ControlPage
    ensures { result.0 ≡ Model.running m.now }
{
    ControlPage(at(m, map::RUNNING_PAGE))
}

// The name, the priority of the processor of a page.
pub fn name(m: &Memory, page: ControlPage) -> Name
    ensures { (result.0 ≡ Model.name m.now page.0) × (result.0 < 16) }
{
    let w = page.word(m, map::LABEL);
    Name(w % map::FIELD)
}

pub fn priority(m: &Memory, page: ControlPage) -> u8
    ensures { result ≡ Model.priority m.now page.0 }
{
    page.word(m, map::LABEL) / map::FIELD
}

// Whether it is ready: neither bit is set.
pub fn ready(m: &Memory, page: ControlPage) -> bool
    ensures { result ≡ Model.ready m.now page.0 }
{
    page.word(m, map::STATE) < map::WAIT_BIT
}

// Whether the processor of a page has the name.
#[tactic(auto, unfolding(model::specs::Processor::is_named))]
pub fn is_named(m: &Memory, name: Name, page: ControlPage) -> bool
    ensures { result ≡ Model.is_named m.now name.0 page.0 }
{
    page.word(m, map::LABEL) % map::FIELD == name.0
}

// The page of the processor of that name.
#[tactic(auto, using(queues::proofs::Laws::found_by))]
pub fn page_of(m: &Memory, name: Name) -> Option<ControlPage>
    ensures { result ≡ found (Model.page_of m.now name.0) }
{
    Queue::processors()
        .pages(m)
        .find(|page| is_named(m, name, *page))
}

// By the record of a page: A becomes the value; the stopped bit is set, is cleared; LR becomes the address.
#[tactic(auto, using(crate::proofs::Records::records))]
pub fn accumulate(m: &mut Memory, page: ControlPage, value: u8)
    ensures { m.new ≡ Model.store m.old page.0 Map.word_a value }
{
    Registers::of(m, page)
        .set_accumulator(wide(value))
        .hand_back(m, page);
}

#[tactic(auto, using(crate::proofs::Records::records))]
pub fn stop(m: &mut Memory, page: ControlPage)
    ensures { m.new ≡ Model.stop m.old page.0 }
{
    Registers::of(m, page).set_stopped().hand_back(m, page);
}

#[tactic(auto, using(crate::proofs::Records::records))]
pub fn start(m: &mut Memory, page: ControlPage)
    ensures { m.new ≡ Model.start m.old page.0 }
{
    Registers::of(m, page).clear_stopped().hand_back(m, page);
}

#[tactic(auto, using(crate::proofs::Records::records))]
pub fn set_lr(m: &mut Memory, page: ControlPage, address: u16)
    ensures { m.new ≡ Model.set_lr m.old page.0 address }
{
    Registers::of(m, page).jump(address).hand_back(m, page);
}

// LR of the running processor, and LR grown by the length.
#[tactic(auto, unfolding(model::specs::Processor::registers_of))]
pub fn lr(m: &Memory) -> u16
    ensures { (result ≡ Model.lr m.now) × (result < 8192) }
{
    Registers::of(m, running(m)).lr
}

#[tactic(auto, using(crate::proofs::Records::records))]
pub fn advance(m: &mut Memory, length: u16)
    requires { length < 8192 }
    ensures { m.new ≡ Model.advance m.old length }
{
    let runner = running(m);
    Registers::of(m, runner)
        .advance(length)
        .hand_back(m, runner);
}

// A wait queue, by the place of its semaphore; its header is the next word.
#[derive(Clone, Copy)]
pub struct WaitQueue {
    pub semaphore: u16,
    ghost in_memory: { semaphore < 8191 },
}

impl WaitQueue {
    // The queue of those that wait for a page, for an interrupt, and a processor's own, for a message.
    pub fn for_page() -> Self
        ensures { result.semaphore ≡ Map.free_semaphore }
    {
        Self {
            semaphore: map::FREE_SEMAPHORE,
        }
    }

    pub fn for_interrupt(interrupt: u8) -> Self
        requires { interrupt ≤ 54 }
        ensures { result.semaphore ≡ Map.semaphore_of interrupt }
    {
        Self {
            semaphore: map::SEMAPHORES + 2 * wide(interrupt),
        }
    }

    pub fn own(page: ControlPage) -> Self
        ensures { result.semaphore ≡ Map.place page.0 Map.own_semaphore }
    {
        Self {
            semaphore: page.place(map::OWN_SEMAPHORE),
        }
    }

    // The pages that wait.
    fn waiters(self) -> Queue
        ensures { (result.header ≡ self.semaphore + 1) × (result.link ≡ Map.link) }
    {
        Queue::at(self.semaphore + 1)
    }

    // The page joins, leaves it.
    #[tactic(auto, using(crate::proofs::Laws::enqueue_is))]
    pub fn enqueue(self, m: &mut Memory, page: ControlPage)
        ensures { m.new ≡ Model.enqueue m.old self.semaphore page.0 }
    {
        let count = at(m, self.semaphore);
        write(m, self.semaphore, lowered(count));
        self.waiters().join(m, page);
    }

    #[tactic(auto, unfolding(model::specs::Wait::unqueue))]
    pub fn unqueue(self, m: &mut Memory, page: ControlPage)
        ensures { m.new ≡ Model.unqueue m.old self.semaphore page.0 }
    {
        let count = at(m, self.semaphore);
        write(m, self.semaphore, raised(count));
        self.waiters().leave(m, page);
    }

    // It is put to wait there, for a reason.
    #[tactic(auto, unfolding(model::specs::Wait::put_to_wait))]
    pub fn put_to_wait(self, m: &mut Memory, page: ControlPage, reason: u8)
        ensures { m.new ≡ Model.put_to_wait m.old self.semaphore page.0 reason }
    {
        let x = page.word(m, map::STATE);
        page.store(
            m,
            map::STATE,
            x / map::STOP_BIT * map::STOP_BIT + map::WAIT_BIT + x % map::WAIT_BIT,
        );
        page.store(m, map::REASON, reason);
        self.enqueue(m, page);
    }

    // It wakes: it leaves that queue, its waiting bit and reason are cleared.
    #[tactic(auto, using(crate::proofs::Laws::wake_is))]
    pub fn wake(self, m: &mut Memory, page: ControlPage)
        ensures { m.new ≡ Model.wake m.old self.semaphore page.0 }
    {
        self.unqueue(m, page);
        clear_waiting(m, page);
        page.store(m, map::REASON, 0);
    }

    // Whether the page waits there; page 0, which is no control page, passes for one that does.
    #[tactic(auto, using(crate::proofs::Laws::queued_zero, crate::proofs::Laws::queued_found))]
    pub fn holds(self, m: &Memory, page: ControlPage) -> bool
        ensures { result ≡ Model.queued m.now self.semaphore page.0 }
    {
        page.0 == 0 || find_page(m, page, self.semaphore + 1, map::CONTROL_PAGES).is_some()
    }
}

// Its waiting bit is cleared.
#[tactic(auto, using(crate::proofs::Laws::clear_is))]
fn clear_waiting(m: &mut Memory, page: ControlPage)
    ensures { m.new ≡ Model.store m.old page.0 Map.state (Map.wait_cleared (Model.word m.old page.0 Map.state)) }
{
    let x = page.word(m, map::STATE);
    page.store(
        m,
        map::STATE,
        x / map::STOP_BIT * map::STOP_BIT + x % map::WAIT_BIT,
    );
}

// Where it waits: for one of so many interrupts, the last first, else for a page, else for a message.
#[tactic(auto, using(crate::proofs::Laws::seats))]
pub fn seat(m: &Memory, page: ControlPage, interrupts: u8) -> WaitQueue
    requires { interrupts ≤ 54 }
    ensures { result.semaphore ≡ Model.seat interrupts m.now page.0 }
{
    for before in (0..interrupts).rev() {
        let queue = WaitQueue::for_interrupt(before + 1);
        if queue.holds(m, page) {
            return queue;
        }
    }
    let queue = WaitQueue::for_page();
    if queue.holds(m, page) {
        return queue;
    }
    WaitQueue::own(page)
}

// It leaves any wait queue, not woken.
#[tactic(auto, using(crate::proofs::Laws::wait_left, crate::proofs::Laws::wait_none))]
pub fn leave_wait(m: &mut Memory, page: ControlPage)
    ensures { m.new ≡ Model.leave_wait m.old page.0 }
{
    let queue = seat(m, page, map::INTERRUPTS);
    if queue.holds(m, page) {
        queue.unqueue(m, page);
    }
}
