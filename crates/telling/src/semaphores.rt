// 31: the semaphores, and who waits for a page.
ghost use Rattle.std.specs.Prelude.{◌≡◌, [], ◌∷◌, ◌<◌};
ghost use Rattle.model.specs.Map as Map;
ghost use Rattle.model.specs.Store.{bytes};
ghost use Rattle.model.specs.Rule.{holds};
ghost use Rattle.model.specs.Lists.{range};
ghost use Rattle.model.specs.Tell.{offending};
ghost use Rattle.model.specs.Judge as Judge;
ghost use Rattle.model.specs.Classes as Classes;
ghost use Rattle.model.specs.Bytes as Model;
ghost use Rattle.telling.specs.Rows.{here, lowest, lowest_by};

use crate::lowest::{lowest, unless};
use crate::places::{grant_for, header_after, semaphore_after};
use crate::walks::{length_of, met, processors};
use lists::less;
use model::{ControlPage, Memory, map};
use words::at;

// Interrupt k + 1.
#[tactic(auto, using(crate::proofs::Asking::semaphore_is))]
fn interrupt_semaphore(m: &Memory, k: u8) -> bool
    ensures { result ≡ holds (here (Judge.interrupt_semaphore bytes) m.now k) }
{
    at(m, semaphore_after(k)) == less(0, length_of(m, header_after(k)))
}

fn interrupt_semaphores(m: &Memory) -> Option<u16>
    ensures { result ≡ lowest_by Map.semaphore_after (here (Judge.interrupt_semaphore bytes) m.now) (range Map.interrupts 1 0) }
{
    (0..map::INTERRUPTS)
        .filter_map(|k| unless(interrupt_semaphore(m, k), semaphore_after(k)))
        .min()
}

#[tactic(auto, using(model::proofs::Tests::tests), unfolding(model::specs::Judge::message_semaphore, model::specs::Rule::holds))]
fn message_semaphore(m: &Memory, p: ControlPage) -> bool
    ensures { result ≡ holds (here (Judge.message_semaphore bytes) m.now p.0) }
{
    p.word(m, map::OWN_SEMAPHORE) == less(0, length_of(m, p.place(map::OWN_QUEUE)))
}

#[tactic(auto, using(crate::proofs::Chains::walk_told))]
fn message_semaphores(m: &Memory) -> Option<u16>
    ensures { result ≡ lowest_by Classes.semaphore (here (Judge.message_semaphore bytes) m.now) (Model.met m.now Map.processor_list) }
{
    processors(m)
        .filter_map(|p| unless(message_semaphore(m, p), p.place(map::OWN_SEMAPHORE)))
        .min()
}

#[tactic(auto, unfolding(model::specs::Classes::page_semaphore, model::specs::Judge::page_semaphore, model::specs::Rule::holds))]
fn page_semaphore(m: &Memory) -> bool
    ensures { result ≡ holds (here (Classes.page_semaphore bytes) m.now Map.free_semaphore) }
{
    at(m, map::FREE_SEMAPHORE) == less(length_of(m, map::FREE_LIST), length_of(m, map::PAGE_QUEUE))
}

#[tactic(auto, using(crate::proofs::Lows::rows), unfolding(model::specs::Classes::semaphores))]
pub fn semaphores(m: &Memory) -> Option<u16>
    ensures { result ≡ lowest (offending (here (Classes.semaphores bytes) m.now)) }
{
    lowest(&[
        interrupt_semaphores(m),
        message_semaphores(m),
        unless(page_semaphore(m), map::FREE_SEMAPHORE),
    ])
}

// Of each that waits for a page: none is free, and it has no grant.
#[tactic(auto, using(crate::proofs::Chains::walk_told, crate::proofs::Lows::row_is), unfolding(model::specs::Classes::none_free, model::specs::Rule::holds))]
fn asking_none_free(m: &Memory) -> Option<u16>
    ensures { result ≡ lowest_by (λ p. Map.free_list) (here (Classes.none_free bytes) m.now) (Model.met m.now Map.page_queue) }
{
    let free = length_of(m, map::FREE_LIST);
    met(m, map::PAGE_QUEUE)
        .filter_map(|_| unless(free == 0, map::FREE_LIST))
        .min()
}

fn grant_of(m: &Memory, p: ControlPage) -> u16
    ensures { (result ≡ here (Classes.grant_of bytes) m.now p.0) × (result < 8192) }
{
    grant_for(p.word(m, map::LABEL) % map::FIELD)
}

#[tactic(auto, using(crate::proofs::Asking::no_grant_is))]
fn no_grant(m: &Memory, p: ControlPage) -> bool
    ensures { result ≡ holds (here (Classes.no_grant bytes) m.now p.0) }
{
    at(m, grant_of(m, p)) == 0
}

#[tactic(auto, using(crate::proofs::Chains::walk_told))]
fn asking_no_grant(m: &Memory) -> Option<u16>
    ensures { result ≡ lowest_by (here (Classes.grant_of bytes) m.now) (here (Classes.no_grant bytes) m.now) (Model.met m.now Map.page_queue) }
{
    met(m, map::PAGE_QUEUE)
        .filter_map(|p| unless(no_grant(m, p), grant_of(m, p)))
        .min()
}

#[tactic(auto, using(crate::proofs::Lows::rows), unfolding(model::specs::Classes::page_waits))]
pub fn page_waits(m: &Memory) -> Option<u16>
    ensures { result ≡ lowest (offending (here (Classes.page_waits bytes) m.now)) }
{
    lowest(&[asking_none_free(m), asking_no_grant(m)])
}
