// Well-formed: reasons, message waits, semaphores, and waits for a page.
ghost use Rattle.std.specs.Prelude.{◌≡◌, ◌<◌, length};
ghost use Rattle.model.specs.Map as Map;
ghost use Rattle.model.specs.Store.{bytes};
ghost use Rattle.model.specs.Rule.{holds, each, below, same};
ghost use Rattle.model.specs.Judge as Judge;
ghost use Rattle.model.specs.Bytes as Model;
ghost use Rattle.lists.specs.Heads.{rule};

use crate::tables::is_at;
use lists::{length_of, less, lies, list_of, processors};
use mail::Note;
use model::{ControlPage, Memory, map, wide};
use words::at;

// ---- "reasons 1-255 in interrupt queues, 0 in the page queue and when not waiting"
#[tactic(auto, unfolding(model::specs::Judge::reasoned))]
pub fn reasoned(m: &Memory, p: ControlPage) -> bool
    ensures { result ≡ holds (Judge.reasoned bytes m.now p.0) }
{
    let w = p.word(m, map::REASON);
    lies(w, 1, map::A_WORD)
}

#[tactic(auto, unfolding(model::specs::Rule::holds, model::specs::Judge::reasonless))]
pub fn reasonless(m: &Memory, p: ControlPage) -> bool
    ensures { result ≡ holds (Judge.reasonless bytes m.now p.0) }
{
    let w = p.word(m, map::REASON);
    w == 0
}

#[tactic(auto, using(crate::proofs::Sentences::sentences))]
pub fn quiet(m: &Memory, p: ControlPage) -> bool
    ensures { result ≡ holds (Judge.quiet bytes m.now p.0) }
{
    let w = p.word(m, map::STATE);
    if w % map::STOP_BIT / map::WAIT_BIT == 0 {
        return reasonless(m, p);
    }
    true
}

// Interrupt k + 1; all of them; all in the page queue; all processors.
fn served(m: &Memory, k: u8) -> bool
    ensures { result ≡ holds (rule (Judge.served bytes) m.now k) }
{
    list_of(m, map::HEADERS_AFTER + 2 * wide(k)).all(|p| reasoned(m, p))
}

fn all_served(m: &Memory) -> bool
    ensures { result ≡ holds (below Map.interrupts (rule (Judge.served bytes) m.now)) }
{
    (0..map::INTERRUPTS).all(|k| served(m, k))
}

fn all_reasonless(m: &Memory) -> bool
    ensures { result ≡ holds (each (Model.lists m.now Map.page_queue) (Judge.reasonless bytes m.now)) }
{
    list_of(m, map::PAGE_QUEUE).all(|p| reasonless(m, p))
}

fn all_quiet(m: &Memory) -> bool
    ensures { result ≡ holds (each (Model.lists m.now Map.processor_list) (Judge.quiet bytes m.now)) }
{
    processors(m).all(|p| quiet(m, p))
}

#[tactic(auto, using(lists::proofs::Folds::parts), unfolding(model::specs::Judge::reasons))]
pub fn reasons(m: &Memory) -> bool
    ensures { result ≡ holds (rule (Judge.reasons bytes) m.now) }
{
    all_served(m) && all_reasonless(m) && all_quiet(m)
}

// ---- "a message wait holds its owner only, reason flag 0-7, and matches nothing in its Q1"
// What page p waits for is not message q.
#[tactic(auto, unfolding(model::specs::Rule::holds, model::specs::Judge::unasked))]
pub fn unasked(m: &Memory, p: ControlPage, q: ControlPage) -> bool
    ensures { result ≡ holds (Judge.unasked bytes m.now p.0 q.0) }
{
    !Note::of(p.word(m, map::REASON)).fits(q.word(m, map::NOTE))
}

// Nothing in its Q1 is what page p waits for; page x is in the own queue of page p.
fn none_asked(m: &Memory, p: ControlPage) -> bool
    ensures { result ≡ holds (each (Model.lists m.now (Map.place p.0 Map.q1)) (Judge.unasked bytes m.now p.0)) }
{
    list_of(m, p.place(map::Q1)).all(|q| unasked(m, p, q))
}

#[tactic(auto, using(crate::proofs::Sentences::sentences))]
fn owner(m: &Memory, p: ControlPage, x: u8) -> bool
    ensures { result ≡ holds (rule (Judge.owner bytes) m.now p.0 x) }
{
    let w = p.word(m, map::REASON);
    if x == p.0 && w % map::FIELD <= map::LAST_FLAG {
        return none_asked(m, p);
    }
    false
}

// Page p; all processors.
fn message_wait(m: &Memory, p: ControlPage) -> bool
    ensures { result ≡ holds (rule (Judge.message_wait bytes) m.now p.0) }
{
    list_of(m, p.place(map::OWN_QUEUE)).all(|x| owner(m, p, x.0))
}

pub fn message_waits(m: &Memory) -> bool
    ensures { result ≡ holds (rule (Judge.message_waits bytes) m.now) }
{
    processors(m).all(|p| message_wait(m, p))
}

// ---- "semaphores as above"
// The semaphore is minus the length of the list of the head.
#[tactic(auto, using(crate::proofs::Sentences::sentences))]
fn minus_waiters(m: &Memory, semaphore: u8, head: u16) -> bool
    requires { head < 8192 }
    ensures { result ≡ holds (same semaphore (Map.less 0 (length (Model.lists m.now head)))) }
{
    semaphore == less(0, length_of(m, head))
}

// Interrupt k + 1, page p; all interrupts, all processors; waits for a page.
#[tactic(auto, using(crate::proofs::Sentences::sentences))]
fn interrupt_semaphore(m: &Memory, k: u8) -> bool
    ensures { result ≡ holds (rule (Judge.interrupt_semaphore bytes) m.now k) }
{
    let j = wide(k);
    let s = at(m, map::SEMAPHORES_AFTER + 2 * j);
    minus_waiters(m, s, map::HEADERS_AFTER + 2 * j)
}

#[tactic(auto, using(crate::proofs::Sentences::sentences))]
fn message_semaphore(m: &Memory, p: ControlPage) -> bool
    ensures { result ≡ holds (rule (Judge.message_semaphore bytes) m.now p.0) }
{
    let s = p.word(m, map::OWN_SEMAPHORE);
    minus_waiters(m, s, p.place(map::OWN_QUEUE))
}

fn interrupt_semaphores(m: &Memory) -> bool
    ensures { result ≡ holds (below Map.interrupts (rule (Judge.interrupt_semaphore bytes) m.now)) }
{
    (0..map::INTERRUPTS).all(|k| interrupt_semaphore(m, k))
}

fn message_semaphores(m: &Memory) -> bool
    ensures { result ≡ holds (each (Model.lists m.now Map.processor_list) (rule (Judge.message_semaphore bytes) m.now)) }
{
    processors(m).all(|p| message_semaphore(m, p))
}

#[tactic(auto, unfolding(model::specs::Rule::holds, model::specs::Judge::page_semaphore))]
fn page_semaphore(m: &Memory) -> bool
    ensures { result ≡ holds (rule (Judge.page_semaphore bytes) m.now) }
{
    let s = at(m, map::FREE_SEMAPHORE);
    let a = length_of(m, map::FREE_LIST);
    let b = length_of(m, map::PAGE_QUEUE);
    s == less(a, b)
}

#[tactic(auto, using(lists::proofs::Folds::parts), unfolding(model::specs::Judge::semaphores))]
pub fn semaphores(m: &Memory) -> bool
    ensures { result ≡ holds (rule (Judge.semaphores bytes) m.now) }
{
    interrupt_semaphores(m) && message_semaphores(m) && page_semaphore(m)
}

// ---- "free list empty if anyone waits for a page, who then holds no grant"
// Page p; each of the page queue.
#[tactic(auto, using(crate::proofs::Sentences::sentences))]
fn page_wait(m: &Memory, p: ControlPage) -> bool
    ensures { result ≡ holds (rule (Judge.page_wait bytes) m.now p.0) }
{
    let w = p.word(m, map::LABEL);
    is_at(m, map::FREE_LIST, 0) && is_at(m, map::GRANTS + wide(w % map::FIELD), 0)
}

pub fn page_waits(m: &Memory) -> bool
    ensures { result ≡ holds (rule (Judge.page_waits bytes) m.now) }
{
    list_of(m, map::PAGE_QUEUE).all(|p| page_wait(m, p))
}
