// Refusals and faults, and page 9: how an instruction ends, done, by a jump, put to wait or with a fault; then who runs. A length stays a number below
// 8,192: it comes from a table and is added to LR in one line, which a type round it would only open again.
#![tactic(auto)]

ghost use Rattle.std.specs.Prelude.{◌≡◌, ◌<◌};
ghost use Rattle.model.specs.Map as Map;
ghost use Rattle.model.specs.Answer.Outcome.{gives};
ghost use Rattle.model.specs.Coded.{answered, fault_number};
ghost use Rattle.model.specs.Bytes as Model;

use model::{Answer, Fault, Memory, Name, map, wide};
use processors::{WaitQueue, advance, name, running, set_lr, stop};
use turn::who_runs;
use words::{at, write};

// LR grows by the length.
#[tactic(auto, unfolding(model::specs::Answer::done, model::specs::Coded::answered))]
pub fn done(m: &mut Memory, length: u16) -> Answer
    requires { length < 8192 }
    ensures { gives (answered result) m.new ≡ Model.done m.old length }
{
    advance(m, length);
    who_runs(m);
    Answer::Done
}

// LR becomes the address.
#[tactic(auto, unfolding(model::specs::Answer::jumps, model::specs::Coded::answered))]
pub fn jump(m: &mut Memory, address: u16) -> Answer
    ensures { gives (answered result) m.new ≡ Model.jumps m.old address }
{
    let runner = running(m);
    set_lr(m, runner, address);
    who_runs(m);
    Answer::Done
}

// The runner waits in the queue, for a reason.
#[tactic(auto, unfolding(model::specs::Answer::waits, model::specs::Coded::answered))]
pub fn wait(m: &mut Memory, queue: WaitQueue, reason: u8) -> Answer
    ensures { gives (answered result) m.new ≡ Model.waits m.old queue.semaphore reason }
{
    let runner = running(m);
    queue.put_to_wait(m, runner, reason);
    who_runs(m);
    Answer::Waits
}

// The runner waits for a page, LR staying.
#[tactic(auto, unfolding(model::specs::Operate::waits_for_page))]
pub fn wait_for_page(m: &mut Memory) -> Answer
    ensures { gives (answered result) m.new ≡ Model.waits_for_page m.old }
{
    wait(m, WaitQueue::for_page(), 0)
}

// "Page 9": the entry is made while there is room.
#[tactic(auto, using(crate::proofs::Laws::entering))]
fn enter(m: &mut Memory, entry: u8)
    ensures { m.new ≡ Model.entered m.old entry }
{
    let unused = at(m, map::FIRST_UNUSED);
    if unused < map::ENTRIES_FULL {
        write(m, map::FIRST_UNUSED + wide(unused), entry);
        write(m, map::FIRST_UNUSED, unused + 1);
    }
}

// The runner is stopped, and the fault is entered on page 9; its name.
fn stop_runner(m: &mut Memory, fault: Fault) -> Name
    ensures { (m.new ≡ Model.entered (Model.stop m.old (Model.running m.old)) (Map.pair result.0 (fault_number fault)))
        × (result.0 ≡ Model.name m.old (Model.running m.old)) }
{
    let runner = running(m);
    let name = name(m, runner);
    stop(m, runner);
    enter(m, name.0 * map::FIELD + u8::from(fault));
    name
}

// A fault: who runs is looked at, and the answer gives the fault and the name.
#[tactic(auto, using(crate::proofs::Laws::fault_is), unfolding(model::specs::Coded::answered))]
pub fn fault(m: &mut Memory, fault: Fault) -> Answer
    ensures { gives (answered result) m.new ≡ Model.fault m.old (fault_number fault) }
{
    let name = stop_runner(m, fault);
    who_runs(m);
    Answer::Fault(fault, name)
}
