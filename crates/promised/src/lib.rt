// The promises as contracts of the code's own calls: each public call of the kernel takes a run of the memory at entry, with its past, to a run of the memory
// at exit. So what crates/promises says of every run holds of whatever hosts do with these calls.
#![tactic(auto)]

ghost use Rattle.std.specs.Prelude.{◌≡◌, true, ◌<◌, length};
ghost use Rattle.model.specs.Map.{memory_size};
ghost use Rattle.model.specs.Told.Fit.{Good};
ghost use Rattle.model.specs.Fresh.{startable};
ghost use Rattle.model.specs.Layout.{of_file};
ghost use Rattle.laws.specs.Words.{Small};
ghost use Rattle.laws.specs.Calls.Act.{fresh_start, fresh_from, instruct, signal, signals, set, read, judge_it};
ghost use Rattle.history.specs.Lives.{Past, Run, none_yet, later};

use model::{Answer, Refusal, Registers};

// A lent slice is a list of words of 8 bits: no premise of the promises is left to prose.
pub fn lent(m: &[u8]) -> u8
    ensures { Small m.now }
{
    if m.len() == 0 {
        return 0;
    }
    m[0]
}

// The fresh start goes on with a run; and where it is taken, it begins one, whatever the memory holds.
#[tactic(auto, using(crate::proofs::Laws::goings))]
pub fn fresh(m: &mut [u8], line: u16, divider: u16) -> Result<Answer, Refusal>
    ensures goes_on { (h : Past) → Run m.old h → Run m.new (later (fresh_start line divider) m.old h) }
    ensures begins { length m.old ≡ memory_size → startable line divider ≡ true → Run m.new none_yet }
{
    lent(m);
    kernel::fresh(m, line, divider)
}

// So does the fresh start from settings, where the file is good.
#[tactic(auto, using(crate::proofs::Laws::goings))]
pub fn fresh_from_settings(m: &mut [u8], file: &[u8]) -> Result<Answer, Refusal>
    ensures goes_on { (h : Past) → Run m.old h → Run m.new (later (fresh_from file.now) m.old h) }
    ensures begins { length m.old ≡ memory_size → of_file file.now ≡ Good → Run m.new none_yet }
{
    lent(m);
    kernel::fresh_from_settings(m, file)
}

#[tactic(auto, using(crate::proofs::Laws::goings))]
pub fn instruction(m: &mut [u8]) -> Result<Answer, Refusal>
    ensures { (h : Past) → Run m.old h → Run m.new (later instruct m.old h) }
{
    kernel::instruction(m)
}

#[tactic(auto, using(crate::proofs::Laws::goings))]
pub fn interrupt(m: &mut [u8], number: u16, class: u16) -> Result<Answer, Refusal>
    ensures { (h : Past) → Run m.old h → Run m.new (later (signal number class) m.old h) }
{
    kernel::interrupt(m, number, class)
}

#[tactic(auto, using(crate::proofs::Laws::goings))]
pub fn burst(m: &mut [u8], list: &[u8]) -> Result<Answer, Refusal>
    ensures { (h : Past) → Run m.old h → Run m.new (later (signals list.now) m.old h) }
{
    kernel::burst(m, list)
}

#[tactic(auto, using(crate::proofs::Laws::goings))]
pub fn read_registers(m: &[u8]) -> Result<Registers, Refusal>
    ensures { (h : Past) → Run m.now h → Run m.now (later read m.now h) }
{
    kernel::read_registers(m)
}

#[tactic(auto, using(crate::proofs::Laws::goings))]
pub fn set_registers(m: &mut [u8], r: Registers) -> Result<Answer, Refusal>
    ensures { (h : Past) → Run m.old h → Run m.new (later (set r) m.old h) }
{
    kernel::set_registers(m, r)
}

#[tactic(auto, using(crate::proofs::Laws::goings))]
pub fn judge(m: &[u8]) -> Result<(), Refusal>
    ensures { (h : Past) → Run m.now h → Run m.now (later judge_it m.now h) }
{
    kernel::judge(m)
}
