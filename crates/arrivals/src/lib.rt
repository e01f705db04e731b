// What comes from outside: whether an interrupt is one, its arrival, and a burst of them from the line card.
#![tactic(auto)]

ghost use Rattle.std.specs.Prelude.{◌≡◌, true, ◌≤◌, length};
ghost use Rattle.model.specs.Call as Call;
ghost use Rattle.model.specs.Burst as Burst;
ghost use Rattle.model.specs.Told.Checked.{Good};
ghost use Rattle.model.specs.Answer.Outcome.{gives};
ghost use Rattle.model.specs.Bytes as Model;
ghost use Rattle.model.specs.Coded.{told, checked_told};
ghost use Rattle.arrivals.specs.Pairs.{pairs_tested, pairs_arrived};

use interrupts::Interrupt;
use model::{Answer, Memory, Refusal, map};
use turn::who_runs;

// "as pairs of number and class number".
type Pair = [u8; map::PAIR_BYTES];

// Whether the number is that of an interrupt from outside, and the class one that it may have.
#[tactic(auto, unfolding(model::specs::Call::is_outer))]
fn is_outer(number: u16) -> bool
    ensures { result ≡ Call.is_outer number }
{
    (map::FIRST_OUTER_WIDE..=map::LAST_OUTER_WIDE).contains(&number)
}

#[tactic(auto, unfolding(model::specs::Call::is_class))]
fn is_class(number: u16, class: u16) -> bool
    ensures { result ≡ Call.is_class number class }
{
    class <= map::LAST_CLASS && (map::FIRST_CLASSED_WIDE <= number || class == 0)
}

// An interrupt that passed both tests is delivered; then who runs.
#[tactic(auto, using(crate::proofs::Laws::arrivals))]
fn arrive(m: &mut Memory, number: u16, class: u16)
    requires { (Call.is_outer number ≡ true) × (Call.is_class number class ≡ true) }
    ensures { m.new ≡ Model.who_runs (Model.delivered m.old number class) }
{
    let interrupt = Interrupt {
        number: number as u8,
        class: class as u8,
    };
    interrupt.deliver(m);
    who_runs(m);
}

// Whether a list of bytes may be a burst: whole pairs, and at most 32 of them.
#[tactic(auto, unfolding(model::specs::Burst::is_list))]
pub fn is_list(list: &[u8]) -> bool
    ensures { result ≡ Burst.is_list list.now }
{
    list.len() <= map::LONGEST_LIST && list.len() % map::PAIR_BYTES == 0
}

// The pairs in order, each for 24 and then for 25; the first has place 1.
#[tactic(auto, using(crate::proofs::Laws::testing))]
fn test(pairs: &[Pair]) -> Result<(), Refusal>
    requires { length pairs.now ≤ 32 }
    ensures { checked_told result ≡ pairs_tested 1 pairs.now }
{
    for (index, &[number, class]) in pairs.iter().enumerate() {
        let place = index as u16 + 1;
        if !is_outer(u16::from(number)) {
            return Err(Refusal::NoInterruptAt(place));
        }
        if !is_class(u16::from(number), u16::from(class)) {
            return Err(Refusal::WrongClassAt(place));
        }
    }
    Ok(())
}

// The pairs, which passed the tests, arrive in order.
#[tactic(auto, using(crate::proofs::Laws::arriving))]
fn arrive_all(m: &mut Memory, pairs: &[Pair])
    requires { pairs_tested 1 pairs.now ≡ Good }
    ensures { m.new ≡ pairs_arrived m.old pairs.now }
{
    for &[number, class] in pairs {
        arrive(m, u16::from(number), u16::from(class));
    }
}

// One interrupt, on a memory that nothing refuses: 24, 25, or it arrives.
#[tactic(auto, unfolding(model::specs::Call::interrupt_judged, model::specs::Coded::told, model::specs::Coded::refusal, model::specs::Coded::answered))]
pub fn interrupt_judged(m: &mut Memory, number: u16, class: u16) -> Result<Answer, Refusal>
    ensures { gives (told result) m.new ≡ Model.interrupt_judged m.old number class }
{
    if !is_outer(number) {
        return Err(Refusal::NoInterrupt);
    }
    if !is_class(number, class) {
        return Err(Refusal::WrongClass);
    }
    arrive(m, number, class);
    Ok(Answer::Done)
}

// A burst, on such a memory: 27, the first bad pair with its place, or all arrive.
#[tactic(auto, using(crate::proofs::Laws::bursts))]
pub fn burst_judged(m: &mut Memory, list: &[u8]) -> Result<Answer, Refusal>
    ensures { gives (told result) m.new ≡ Model.burst_judged m.old list.now }
{
    if !is_list(list) {
        return Err(Refusal::WrongList);
    }
    let (pairs, _) = list.as_chunks();
    test(pairs)?;
    arrive_all(m, pairs);
    Ok(Answer::Done)
}
