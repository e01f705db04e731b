// Well-formed: grants, messages, and the zeros of word 12.
ghost use Rattle.std.specs.Prelude.{◌≡◌, ◌≤◌};
ghost use Rattle.model.specs.Map as Map;
ghost use Rattle.model.specs.Store.{bytes};
ghost use Rattle.model.specs.Rule.{holds, each};
ghost use Rattle.model.specs.Judge as Judge;
ghost use Rattle.model.specs.Bytes as Model;
ghost use Rattle.lists.specs.Heads.{rule};

use crate::tables::is_at;
use lists::{bearers, lies, list_of, processors};
use model::{ControlPage, Memory, map, wide};
use words::at;

// ---- "grants only to existing names; page 10's other words zero"
// Word k of page 10, which needs no bearer where it is 0; all of them.
#[tactic(auto, using(crate::proofs::Sentences::sentences))]
fn grant(m: &Memory, k: u8) -> bool
    ensures { result ≡ holds (rule (Judge.grant bytes) m.now k) }
{
    let w = at(m, map::GRANTS + wide(k));
    w == 0 || bearers(m, k, map::PROCESSOR_LIST, map::ONE_MORE) == 1
}

pub fn granted(m: &Memory) -> bool
    ensures { result ≡ holds (rule (Judge.granted bytes) m.now) }
{
    (0..map::GRANT_WORDS).all(|k| grant(m, k))
}

// ---- "senders 1-15, flags 1-7, word 2 of a message 0-29, 64-93 or 128"
#[tactic(auto, using(crate::proofs::Sentences::sentences))]
fn sized(m: &Memory, q: ControlPage) -> bool
    ensures { result ≡ holds (Judge.sized bytes m.now q.0) }
{
    let w = q.word(m, map::SIZE);
    w <= map::NOTICE && w % map::MARK <= map::LONGEST
}

#[tactic(auto, using(crate::proofs::Sentences::sentences))]
pub fn message(m: &Memory, q: ControlPage) -> bool
    ensures { result ≡ holds (Judge.message bytes m.now q.0) }
{
    let w = q.word(m, map::NOTE);
    lies(w / map::FIELD, 1, map::LAST_NAME)
        && lies(w % map::FIELD, 1, map::LAST_FLAG)
        && sized(m, q)
}

// Each in a queue of page p; in Q1 and Q2 of page p; of all processors.
fn queued(m: &Memory, p: ControlPage, queue: u16) -> bool
    requires { queue ≤ Map.q2 }
    ensures { result ≡ holds (each (Model.lists m.now (Map.place p.0 queue)) (Judge.message bytes m.now)) }
{
    list_of(m, p.place(queue)).all(|q| message(m, q))
}

#[tactic(auto, using(lists::proofs::Folds::parts), unfolding(model::specs::Judge::mail))]
fn mail(m: &Memory, p: ControlPage) -> bool
    ensures { result ≡ holds (rule (Judge.mail bytes) m.now p.0) }
{
    queued(m, p, map::Q1) && queued(m, p, map::Q2)
}

pub fn messages(m: &Memory) -> bool
    ensures { result ≡ holds (rule (Judge.messages bytes) m.now) }
{
    processors(m).all(|p| mail(m, p))
}

// ---- "the two zeros of word 12 and page 7 word 26 zero"
#[tactic(auto, unfolding(model::specs::Rule::holds, model::specs::Judge::zero_bits))]
pub fn zero_bits(m: &Memory, p: ControlPage) -> bool
    ensures { result ≡ holds (Judge.zero_bits bytes m.now p.0) }
{
    let w = p.word(m, map::STATE);
    w % map::WAIT_BIT / map::FIELD == 0
}

fn all_zero_bits(m: &Memory) -> bool
    ensures { result ≡ holds (each (Model.lists m.now Map.processor_list) (Judge.zero_bits bytes m.now)) }
{
    processors(m).all(|p| zero_bits(m, p))
}

#[tactic(auto, using(lists::proofs::Folds::parts), unfolding(model::specs::Judge::zeros))]
pub fn zeros(m: &Memory) -> bool
    ensures { result ≡ holds (rule (Judge.zeros bytes) m.now) }
{
    all_zero_bits(m) && is_at(m, map::ZERO_WORD, 0)
}
