// Fresh start and well-formed memory: the judge, a function for each rule, equal to the rules on every memory of 8,192 words.
#![tactic(auto)]

pub mod records;
pub mod running;
pub mod tables;
pub mod waits;

ghost use Rattle.std.specs.Prelude.{◌≡◌, ◌&&◌};
ghost use Rattle.model.specs.Rule.{holds};
ghost use Rattle.model.specs.Bytes as Model;
ghost use Rattle.lists.specs.Heads.{rule};
ghost use Rattle.model.specs.Store.{bytes};
ghost use Rattle.model.specs.Judge as Judge;
ghost use Rattle.judge.specs.Tails as Tails;

use crate::records::{granted, messages, zeros};
use crate::running::running;
use crate::tables::{clock, codes, faults};
use crate::waits::{message_waits, page_waits, reasons, semaphores};
use lists::names::named;
use lists::seen::{Seen, flag_bits, used_bits, wait_bits};
use model::{Memory, map};

// A rule that does not hold ends the judging. The tables, from codes on, are asked first, since that costs least; then of the rest: from messages on, from
// page waits on, from reasons on, all.
#[tactic(auto, using(lists::proofs::Folds::parts), unfolding(crate::specs::Tails::tabled))]
fn tabled(m: &Memory) -> bool
    ensures { result ≡ holds (Tails.tabled m.now) }
{
    codes(m) && clock(m) && faults(m) && zeros(m)
}

#[tactic(auto, using(lists::proofs::Folds::parts), unfolding(crate::specs::Tails::mailed))]
fn mailed(m: &Memory) -> bool
    ensures { result ≡ holds (Tails.mailed m.now) }
{
    messages(m) && running(m)
}

#[tactic(auto, using(lists::proofs::Folds::parts), unfolding(crate::specs::Tails::paged))]
fn paged(m: &Memory) -> bool
    ensures { result ≡ holds (Tails.paged m.now) }
{
    page_waits(m) && granted(m) && mailed(m)
}

#[tactic(auto, using(lists::proofs::Folds::parts), unfolding(crate::specs::Tails::waited))]
fn waited(m: &Memory) -> bool
    ensures { result ≡ holds (Tails.waited m.now) }
{
    reasons(m) && message_waits(m) && semaphores(m) && paged(m)
}

#[tactic(auto, using(crate::proofs::Whole::whole))]
fn titled(m: &Memory) -> bool
    ensures { result ≡ (holds (rule (Judge.names bytes) m.now) && holds (Tails.waited m.now)) }
{
    named(m) && waited(m)
}

#[tactic(auto, using(crate::proofs::Whole::whole))]
fn linked(m: &Memory) -> bool
    ensures { result ≡ holds (Tails.linked m.now) }
{
    let Some(used) = used_bits(m) else {
        return false;
    };
    used.are_all()
        && wait_bits(m) == flag_bits(m, Seen::none(), map::PROCESSOR_LIST, map::ONE_MORE)
        && titled(m)
}

#[tactic(auto, using(crate::proofs::Whole::whole))]
pub fn judged(m: &Memory) -> bool
    ensures { result ≡ Model.judged m.now }
{
    tabled(m) && linked(m)
}
