// 31, "a wait queue or semaphore": the queues, the waiting bits, reasons and message waits.
ghost use Rattle.std.specs.Prelude.{◌≡◌, ◌<◌};
ghost use Rattle.model.specs.Map as Map;
ghost use Rattle.model.specs.Store.{bytes};
ghost use Rattle.model.specs.Rule.{holds, each};
ghost use Rattle.model.specs.Lists.{owns};
ghost use Rattle.model.specs.Walks.{gather};
ghost use Rattle.model.specs.Tell.{offending, offending_in};
ghost use Rattle.model.specs.Judge as Judge;
ghost use Rattle.model.specs.Classes as Classes;
ghost use Rattle.model.specs.Bytes as Model;
ghost use Rattle.telling.specs.Rows.{here, lowest, lowest_by, lowest_end, silent};
ghost use Rattle.telling.specs.Met as Met;

use crate::lowest::{list_end, lowest, unless};
use crate::met::{Marks, list_marks, wait_marks};
use crate::places::{control, header_after};
use crate::semaphores::{page_waits, semaphores};
use crate::walks::{met, processors};
use judge::waits::{quiet, reasoned, reasonless, unasked};
use model::{ControlPage, Memory, map};

// The ends of the processors' own queues, of the queues of the interrupts, and of all queues.
#[tactic(auto, using(crate::proofs::Chains::owns_told))]
fn owns_end(m: &Memory) -> Option<u16>
    ensures { result ≡ lowest_end m.now (owns (Model.met m.now Map.processor_list)) }
{
    processors(m)
        .filter_map(|p| list_end(m, p.place(map::OWN_QUEUE)))
        .min()
}

fn lines_end(m: &Memory) -> Option<u16>
    ensures { result ≡ lowest_end m.now Classes.lines }
{
    (0..map::INTERRUPTS)
        .filter_map(|k| list_end(m, header_after(k)))
        .min()
}

#[tactic(auto, using(crate::proofs::Lows::heads, crate::proofs::Lows::row_only), unfolding(model::specs::Classes::queues_end))]
fn queues_end(m: &Memory) -> Option<u16>
    ensures { result ≡ lowest (offending (here (Classes.queues_end bytes) m.now)) }
{
    lowest(&[list_end(m, map::PAGE_QUEUE), owns_end(m), lines_end(m)])
}

// The waiting bit of a processor, by the marks of all that wait.
#[tactic(auto, using(crate::proofs::Meeting::bit_by))]
fn bit(m: &Memory, waiting: Marks, p: ControlPage) -> bool
    requires { waiting ≡ Met.wait_marks m.now }
    ensures { result ≡ holds (here (Judge.bit bytes) m.now p.0) }
{
    let w = p.word(m, map::STATE);
    waiting.times(p) == (w % map::STOP_BIT / map::WAIT_BIT) as u64
}

#[tactic(auto, using(crate::proofs::Chains::walk_told))]
fn bits(m: &Memory, waiting: Marks) -> Option<u16>
    requires { waiting ≡ Met.wait_marks m.now }
    ensures { result ≡ lowest_by Classes.page (here (Judge.bit bytes) m.now) (Model.met m.now Map.processor_list) }
{
    processors(m)
        .filter_map(|p| unless(bit(m, waiting, p), p.place(map::LINK)))
        .min()
}

// Who waits is a processor, by those marks and those of the processors.
fn waiters(m: &Memory, waiting: Marks) -> Option<u16>
    requires { (waiting ≡ Met.wait_marks m.now) × Met.Single m.now }
    ensures { result ≡ lowest_by Classes.page (here (Judge.waiter bytes) m.now) Classes.controls }
{
    let listed = list_marks(m);
    (0..map::CONTROL_PAGES)
        .filter_map(|k| {
            let page = control(k);
            unless(
                waiting.times(page) <= listed.times(page),
                page.place(map::LINK),
            )
        })
        .min()
}

#[tactic(auto, using(crate::proofs::Lows::rows), unfolding(model::specs::Classes::waiting_bits))]
fn waiting_bits(m: &Memory) -> Option<u16>
    requires { Met.Single m.now }
    ensures { result ≡ lowest (offending (here (Classes.waiting_bits bytes) m.now)) }
{
    let waiting = wait_marks(m);
    lowest(&[bits(m, waiting), waiters(m, waiting)])
}

// The reasons of those in the queue of a head; in those of the interrupts; in the page queue; of who does not wait.
#[tactic(auto, using(crate::proofs::Chains::walk_told))]
fn served(m: &Memory, head: u16) -> Option<u16>
    requires { head < 8192 }
    ensures { result ≡ lowest_by Classes.page (Judge.reasoned bytes m.now) (Model.met m.now head) }
{
    met(m, head)
        .filter_map(|p| unless(reasoned(m, p), p.place(map::LINK)))
        .min()
}

fn all_served(m: &Memory) -> Option<u16>
    ensures { result ≡ lowest_by Classes.page (Judge.reasoned bytes m.now) (gather (Model.met m.now) Classes.lines) }
{
    (0..map::INTERRUPTS)
        .filter_map(|k| served(m, header_after(k)))
        .min()
}

#[tactic(auto, using(crate::proofs::Chains::walk_told))]
fn asking_reasonless(m: &Memory) -> Option<u16>
    ensures { result ≡ lowest_by Classes.page (Judge.reasonless bytes m.now) (Model.met m.now Map.page_queue) }
{
    met(m, map::PAGE_QUEUE)
        .filter_map(|p| unless(reasonless(m, p), p.place(map::LINK)))
        .min()
}

#[tactic(auto, using(crate::proofs::Chains::walk_told))]
fn all_quiet(m: &Memory) -> Option<u16>
    ensures { result ≡ lowest_by Classes.page (Judge.quiet bytes m.now) (Model.met m.now Map.processor_list) }
{
    processors(m)
        .filter_map(|p| unless(quiet(m, p), p.place(map::LINK)))
        .min()
}

#[tactic(auto, using(crate::proofs::Lows::rows), unfolding(model::specs::Classes::reasons))]
fn reasons(m: &Memory) -> Option<u16>
    ensures { result ≡ lowest (offending (here (Classes.reasons bytes) m.now)) }
{
    lowest(&[all_served(m), asking_reasonless(m), all_quiet(m)])
}

// What page p waits for is none of the messages in its Q1, and has a flag.
fn none_asked(m: &Memory, p: ControlPage) -> bool
    ensures { result ≡ holds (each (Model.met m.now (Map.place p.0 Map.q1)) (Judge.unasked bytes m.now p.0)) }
{
    met(m, p.place(map::Q1)).all(|q| unasked(m, p, q))
}

#[tactic(auto, using(crate::proofs::Asking::asks))]
fn silent(m: &Memory, p: ControlPage) -> bool
    ensures { result ≡ holds (silent m.now p.0) }
{
    p.word(m, map::REASON) % map::FIELD <= map::LAST_FLAG && none_asked(m, p)
}

// Page x is in the own queue of page p; so are only those that are there.
#[tactic(auto, using(crate::proofs::Asking::owners))]
fn owner(m: &Memory, p: ControlPage, x: ControlPage) -> bool
    ensures { result ≡ holds (here (Judge.owner bytes) m.now p.0 x.0) }
{
    x.0 == p.0 && silent(m, p)
}

fn message_wait(m: &Memory, p: ControlPage) -> bool
    ensures { result ≡ holds (here (Judge.message_wait bytes) m.now p.0) }
{
    met(m, p.place(map::OWN_QUEUE)).all(|x| owner(m, p, x))
}

#[tactic(auto, using(crate::proofs::Chains::walk_told, crate::proofs::Lows::row_only), unfolding(model::specs::Classes::message_waits))]
fn message_waits(m: &Memory) -> Option<u16>
    ensures { result ≡ lowest (offending (here (Classes.message_waits bytes) m.now)) }
{
    processors(m)
        .filter_map(|p| unless(message_wait(m, p), p.place(map::LINK)))
        .min()
}

#[tactic(auto, using(crate::proofs::Lows::sentences), unfolding(model::specs::Classes::of_waits))]
pub fn waits(m: &Memory) -> Option<u16>
    requires { Met.Single m.now }
    ensures { result ≡ lowest (offending_in (here (Classes.of_waits bytes) m.now)) }
{
    lowest(&[
        queues_end(m),
        waiting_bits(m),
        reasons(m),
        message_waits(m),
        semaphores(m),
        page_waits(m),
    ])
}
