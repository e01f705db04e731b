// The public calls. Any memory, of any length, and any numbers get an answer; each contract gives answer and whole memory for every input, and says the same
// by the paper's numbers of the answer.
#![tactic(auto)]

ghost use Rattle.std.specs.Prelude.{◌≡◌, length};
ghost use Rattle.model.specs.Answer.{numbers, held_numbers, verdict_numbers, writing_numbers};
ghost use Rattle.model.specs.Answer.Outcome.{gives};
ghost use Rattle.model.specs.Coded.{told, held_told, verdict_told, writing_told};
ghost use Rattle.model.specs.Bytes as Model;
ghost use Rattle.model.specs.Settings as Settings;
ghost use Rattle.kernel.specs.Spoken.{idle_or, spoken};

use arrivals::{burst_judged, interrupt_judged};
use execute::fetched;
use fresh::{start, startable};
use model::{Answer, ControlPage, Memory, Refusal, Registers};
use processors::{lr, running};
use settings::file::{newest, of_file};
use settling::settle;
use telling::finding;
use words::low;

// The fresh start, on any memory of 8,192 words.
pub fn fresh(m: &mut [u8], line: u16, divider: u16) -> Result<Answer, Refusal>
    ensures outcome { gives (told result) m.new ≡ Model.fresh m.old line divider }
    ensures numbers { gives (numbers (told result)) m.new ≡ spoken numbers (Model.fresh m.old line divider) }
{
    let Some(m) = m.as_mut_array() else {
        return Err(Refusal::WrongLength);
    };
    if !startable(line, divider) {
        return Err(Refusal::OutOfRange);
    }
    start(m, low(line), low(divider));
    Ok(Answer::Done)
}

// The fresh start from a file of settings, on any memory of 8,192 words and any bytes.
pub fn fresh_from_settings(m: &mut [u8], file: &[u8]) -> Result<Answer, Refusal>
    ensures outcome { gives (told result) m.new ≡ Model.from_settings m.old file.now }
    ensures numbers { gives (numbers (told result)) m.new ≡ spoken numbers (Model.from_settings m.old file.now) }
{
    let Some(m) = m.as_mut_array() else {
        return Err(Refusal::WrongLength);
    };
    of_file(file)?;
    settle(m, newest(file));
    Ok(Answer::Done)
}

// Settings are written into a lent buffer of which so many bytes are in use: a block, behind the older ones. The answer is the new length.
pub fn write_settings(buffer: &mut [u8], used: usize, block: &[u8]) -> Result<usize, Refusal>
    ensures outcome { gives (writing_told result) buffer.new ≡ Settings.write_settings buffer.old used block.now }
    ensures numbers { gives (writing_numbers (writing_told result)) buffer.new
        ≡ spoken writing_numbers (Settings.write_settings buffer.old used block.now) }
{
    settings::write::write_settings(buffer, used, block)
}

// The page of the one that runs; 22 where nobody does.
fn runner(m: &Memory) -> Result<ControlPage, Refusal>
    ensures { idle_or (Model.running m.now) result }
{
    let page = running(m);
    if page.0 == 0 {
        return Err(Refusal::Idle);
    }
    Ok(page)
}

#[tactic(auto, using(crate::proofs::Laws::running_one))]
fn instruction_judged(m: &mut Memory) -> Result<Answer, Refusal>
    ensures { gives (told result) m.new ≡ Model.instruction_judged m.old }
{
    runner(m)?;
    let address = lr(m);
    fetched(m, address)
}

// One virtual instruction by the running processor.
pub fn instruction(m: &mut [u8]) -> Result<Answer, Refusal>
    ensures outcome { gives (told result) m.new ≡ Model.instruction m.old }
    ensures numbers { gives (numbers (told result)) m.new ≡ spoken numbers (Model.instruction m.old) }
{
    let Some(m) = m.as_mut_array() else {
        return Err(Refusal::WrongLength);
    };
    finding(m)?;
    instruction_judged(m)
}

// Delivery of an interrupt with its class number.
pub fn interrupt(m: &mut [u8], number: u16, class: u16) -> Result<Answer, Refusal>
    ensures outcome { gives (told result) m.new ≡ Model.interrupt m.old number class }
    ensures numbers { gives (numbers (told result)) m.new ≡ spoken numbers (Model.interrupt m.old number class) }
{
    let Some(m) = m.as_mut_array() else {
        return Err(Refusal::WrongLength);
    };
    finding(m)?;
    interrupt_judged(m, number, class)
}

// Delivery of a burst from the line card: a list of bytes, number and class number in turn, at most 32 pairs.
pub fn burst(m: &mut [u8], list: &[u8]) -> Result<Answer, Refusal>
    ensures outcome { gives (told result) m.new ≡ Model.burst m.old list.now }
    ensures numbers { gives (numbers (told result)) m.new ≡ spoken numbers (Model.burst m.old list.now) }
{
    let Some(m) = m.as_mut_array() else {
        return Err(Refusal::WrongLength);
    };
    // 20 and 30-34 stand before 27.
    finding(m)?;
    burst_judged(m, list)
}

#[tactic(auto, using(crate::proofs::Laws::running_one))]
fn read_judged(m: &Memory) -> Result<Registers, Refusal>
    ensures { gives (held_told result) m.now ≡ Model.read_judged m.now }
{
    Ok(Registers::of(m, runner(m)?))
}

// The running processor's registers.
pub fn read_registers(m: &[u8]) -> Result<Registers, Refusal>
    ensures outcome { gives (held_told result) m.now ≡ Model.read_registers m.now }
    ensures numbers { gives (held_numbers (held_told result)) m.now ≡ spoken held_numbers (Model.read_registers m.now) }
{
    let Some(m) = m.as_array() else {
        return Err(Refusal::WrongLength);
    };
    finding(m)?;
    read_judged(m)
}

#[tactic(auto, using(crate::proofs::Laws::running_one))]
fn set_judged(m: &mut Memory, registers: Registers) -> Result<Answer, Refusal>
    ensures { gives (told result) m.new ≡ Model.set_judged m.old registers }
{
    let page = runner(m)?;
    if !registers.in_range() {
        return Err(Refusal::OutOfRange);
    }
    registers.set_on(m, page);
    Ok(Answer::Done)
}

// The running processor's registers become these.
pub fn set_registers(m: &mut [u8], registers: Registers) -> Result<Answer, Refusal>
    ensures outcome { gives (told result) m.new ≡ Model.set_registers m.old registers }
    ensures numbers { gives (numbers (told result)) m.new ≡ spoken numbers (Model.set_registers m.old registers) }
{
    let Some(m) = m.as_mut_array() else {
        return Err(Refusal::WrongLength);
    };
    finding(m)?;
    set_judged(m, registers)
}

// The judge of well-formed memory.
pub fn judge(m: &[u8]) -> Result<(), Refusal>
    ensures outcome { gives (verdict_told result) m.now ≡ Model.judge m.now }
    ensures numbers { gives (verdict_numbers (verdict_told result)) m.now ≡ spoken verdict_numbers (Model.judge m.now) }
{
    let Some(m) = m.as_array() else {
        return Err(Refusal::WrongLength);
    };
    Ok(finding(m)?)
}
