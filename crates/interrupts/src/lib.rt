// Interrupts: each waiter served front to back, and the clock.
#![tactic(auto)]

ghost use Rattle.std.specs.Prelude.{◌≡◌, cond, ◌<◌, ◌≤◌};
ghost use Rattle.model.specs.Bytes as Model;

use model::{ControlPage, Memory, map, wide};
use processors::{WaitQueue, accumulate};
use queues::page_at;
use words::{at, lowered, raised, write};

// An interrupt: its number, and its class number.
#[derive(Clone, Copy)]
pub struct Interrupt {
    pub number: u8,
    pub class: u8,
    ghost in_map: { number ≤ 54 },
}

impl Interrupt {
    // The class number goes into A of the page, for interrupts 48-50.
    #[tactic(auto, using(model::proofs::Tests::tests), unfolding(model::specs::Interrupt::classed))]
    fn put_class(self, m: &mut Memory, page: ControlPage)
        ensures { m.new ≡ Model.classed m.old self.number self.class page.0 }
    {
        if (map::FIRST_CLASSED..=map::LAST_OUTER).contains(&self.number) {
            accumulate(m, page, self.class);
        }
    }

    // A waiter: reason 1 wakes and leaves, else the reason falls by one.
    #[tactic(auto, using(crate::proofs::Laws::struck_wakes, crate::proofs::Laws::struck_falls))]
    fn strike(self, m: &mut Memory, page: ControlPage)
        ensures { m.new ≡ Model.struck m.old self.number self.class page.0 }
    {
        let reason = page.word(m, map::REASON);
        if reason == 1 {
            WaitQueue::for_interrupt(self.number).wake(m, page);
            self.put_class(m, page);
        } else {
            page.store(m, map::REASON, lowered(reason));
        }
    }

    // It is served: its waiters from the first on; the next is read before one leaves, so this is no `Walk` along the queue.
    pub fn serve(self, m: &mut Memory)
        ensures { m.new ≡ Model.serve m.old self.number self.class }
    {
        let mut next = page_at(m, map::HEADERS + 2 * wide(self.number));
        for _ in 0..map::CONTROL_PAGES {
            let Some(page) = next else {
                return;
            };
            next = page_at(m, page.place(map::LINK));
            self.strike(m, page);
        }
    }

    // It comes from outside; on the clock line it is served, then the clock counts.
    #[tactic(auto, using(crate::proofs::Laws::delivered_clock, crate::proofs::Laws::delivered_plain))]
    pub fn deliver(self, m: &mut Memory)
        ensures { m.new ≡ Model.delivered m.old self.number self.class }
    {
        let line = at(m, map::CLOCK_LINE);
        self.serve(m);
        if self.number == line {
            count(m);
        }
    }
}

// A counter counts. Whether it came to its end: there it is 0 and the interrupt is served.
fn tick(m: &mut Memory, counter: u16, end: u8, interrupt: u8) -> bool
    requires { (counter < 8192) × (interrupt ≤ 54) }
    ensures { (result ≡ Model.ends m.old counter end)
        × (m.new ≡ cond result (Model.turns m.old counter interrupt) (Model.counts m.old counter)) }
{
    let count = raised(at(m, counter));
    if count == end {
        write(m, counter, 0);
        Interrupt {
            number: interrupt,
            class: 0,
        }
        .serve(m);
        return true;
    }
    write(m, counter, count);
    false
}

// The counters C0 to C3: each counts where the one before came to its end, C0's being the divider.
fn count(m: &mut Memory)
    ensures { m.new ≡ Model.c0_counts m.old }
{
    let divider = at(m, map::DIVIDER);
    if tick(m, map::C0, divider, map::C0_INTERRUPT)
        && tick(m, map::C1, map::C1_END, map::C1_INTERRUPT)
        && tick(m, map::C2, map::C2_END, map::C2_INTERRUPT)
    {
        tick(m, map::C3, map::C3_END, map::C3_INTERRUPT);
    }
}
