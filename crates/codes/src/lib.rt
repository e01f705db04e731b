// Instructions: CVI, DVI, GIN, WIN and code 13; page 8. The length is what LR grows by.
#![tactic(auto)]

ghost use Rattle.std.specs.Prelude.{◌≡◌, ◌<◌, eqb, IfOk};
ghost use Rattle.model.specs.Answer.Outcome.{gives};
ghost use Rattle.model.specs.Coded.{answered, kind_number, kind_of, operation_number};
ghost use Rattle.model.specs.Bytes as Model;
ghost use Rattle.codes.specs.Sum.{summed};
ghost use Rattle.codes.specs.Target as Target;

use answers::{done, fault, jump, wait};
use interrupts::Interrupt;
use model::instructions::{self, Kind, NoKind, Operation};
use model::{Answer, ControlPage, Fault, Memory, Registers, map, wide};
use processors::{WaitQueue, accumulate, advance, lr, name, running};
use words::{address_at, at, clear, guarded, high, low, raised, wrapped, write};

// The kind of a code, whether it is of that one, and its program's address. A code is a number here, and no `Code`: 15, which is never built in, may be an
// own one.
pub fn kind(m: &Memory, code: u8) -> Result<Kind, NoKind>
    ensures { result ≡ kind_of (Model.kind m.now code) }
{
    Kind::try_from(at(m, map::CODE_WORDS + 2 * wide(code)) / map::HIGHS)
}

pub fn is_of_kind(m: &Memory, code: u8, wanted: Kind) -> bool
    ensures { result ≡ eqb (Model.kind m.now code) (kind_number wanted) }
{
    kind(m, code) == Ok(wanted)
}

pub fn program(m: &Memory, code: u8) -> u16
    ensures { result ≡ Model.program m.now code }
{
    address_at(m, map::CODE_WORDS + 2 * wide(code))
}

// The code becomes of that kind, at the address.
#[tactic(auto, unfolding(model::specs::Instruction::set_code))]
fn set_code(m: &mut Memory, code: u8, kind: Kind, address: u16)
    ensures { m.new ≡ Model.set_code m.old code (kind_number kind) address }
{
    write(
        m,
        map::CODE_WORDS + 2 * wide(code),
        u8::from(kind) * map::HIGHS + high(address),
    );
    write(m, map::CODE_LOWS + 2 * wide(code), low(address));
}

#[tactic(auto, using(crate::proofs::Laws::ends), unfolding(model::specs::Coded::fault_number, model::specs::Operate::cvi, model::specs::Coded::kind_number))]
pub fn cvi(m: &mut Memory, code: u8, address: u16, length: u16) -> Answer
    requires { length < 8192 }
    ensures { gives (answered result) m.new ≡ Model.cvi m.old code address length }
{
    if is_of_kind(m, code, Kind::Absent) {
        set_code(m, code, Kind::Own, address);
        return done(m, length);
    }
    fault(m, Fault::CodeExists)
}

#[tactic(auto, using(crate::proofs::Laws::ends), unfolding(model::specs::Coded::fault_number, model::specs::Operate::dvi, model::specs::Coded::kind_number))]
pub fn dvi(m: &mut Memory, code: u8, length: u16) -> Answer
    requires { length < 8192 }
    ensures { gives (answered result) m.new ≡ Model.dvi m.old code length }
{
    if code < instructions::FIRST_GOING {
        return fault(m, Fault::KeptCode);
    }
    if is_of_kind(m, code, Kind::Absent) {
        return fault(m, Fault::AbsentCode);
    }
    set_code(m, code, Kind::Absent, 0);
    done(m, length)
}

#[tactic(auto, unfolding(model::specs::Operate::gin))]
pub fn gin(m: &mut Memory, length: u16) -> Answer
    requires { length < 8192 }
    ensures { gives (answered result) m.new ≡ Model.gin m.old length }
{
    let runner = running(m);
    let number = name(m, runner).0;
    Interrupt { number, class: 0 }.serve(m);
    done(m, length)
}

#[tactic(auto, using(crate::proofs::Laws::codes, processors::proofs::Ways::ways), unfolding(model::specs::Coded::fault_number, model::specs::Operate::win))]
pub fn win(m: &mut Memory, interrupt: u8, count: u8, length: u16) -> Answer
    requires { length < 8192 }
    ensures { gives (answered result) m.new ≡ Model.win m.old interrupt count length }
{
    if !(1..=map::INTERRUPTS).contains(&interrupt) || count == 0 {
        return fault(m, Fault::BadWait);
    }
    advance(m, length);
    wait(m, WaitQueue::for_interrupt(interrupt), count)
}

// The registers of the page with the sum of A and the word at the address.
#[tactic(auto, using(crate::proofs::Laws::sum_is))]
fn sum(m: &Memory, page: ControlPage, address: u16) -> Registers
    requires { address < 8192 }
    ensures { result ≡ summed m.now page.0 address }
{
    let registers = Registers::of(m, page);
    let sum = registers.a + wide(at(m, address));
    registers
        .set_accumulator(sum % map::WORD_VALUES)
        .set_carry(sum / map::WORD_VALUES)
}

// Code 13's work on the word at the address: 0 adds, 1 stores, 2 ands, 3 increments.
#[tactic(auto, using(crate::proofs::Laws::add_is))]
fn add(m: &mut Memory, address: u16)
    requires { address < 8192 }
    ensures { m.new ≡ Model.adds m.old address }
{
    let runner = running(m);
    sum(m, runner, address).hand_back(m, runner);
}

#[tactic(auto, unfolding(model::specs::Operate::stores_a))]
fn store_a(m: &mut Memory, address: u16)
    requires { address < 8192 }
    ensures { m.new ≡ Model.stores_a m.old address }
{
    let runner = running(m);
    let accumulator = runner.word(m, map::WORD_A);
    write(m, address, accumulator);
    accumulate(m, runner, 0);
}

#[tactic(auto, unfolding(model::specs::Operate::ands))]
fn and(m: &mut Memory, address: u16)
    requires { address < 8192 }
    ensures { m.new ≡ Model.ands m.old address }
{
    let runner = running(m);
    let accumulator = runner.word(m, map::WORD_A);
    let word = at(m, address);
    accumulate(m, runner, accumulator & word);
}

#[tactic(auto, unfolding(model::specs::Operate::increments))]
fn increment(m: &mut Memory, address: u16)
    requires { address < 8192 }
    ensures { m.new ≡ Model.increments m.old address }
{
    let word = at(m, address);
    write(m, address, raised(word));
}

#[tactic(auto, unfolding(model::specs::Operate::worked, model::specs::Coded::operation_number))]
fn work(m: &mut Memory, operation: Operation, address: u16)
    requires { address < 8192 }
    ensures { m.new ≡ Model.worked m.old (operation_number operation) address }
{
    match operation {
        Operation::Add => add(m, address),
        Operation::Store => store_a(m, address),
        Operation::And => and(m, address),
        Operation::Increment => increment(m, address),
        Operation::Jump | Operation::Vep => (),
    }
}

// VEP's return words.
#[tactic(auto, unfolding(model::specs::Operate::return_to))]
fn return_to(m: &mut Memory, address: u16)
    ensures { m.new ≡ Model.return_to m.old address }
{
    write(m, map::RETURN_HIGH, high(address));
    write(m, map::RETURN_LOW, low(address));
}

// CODE1 at its address.
#[tactic(auto, using(crate::proofs::Laws::reaching), unfolding(model::specs::Operate::reaches, model::specs::Coded::operation_number))]
fn reach(m: &mut Memory, operation: Operation, address: u16, length: u16) -> Answer
    requires { (address < 8192) × (length < 8192) }
    ensures { gives (answered result) m.new ≡ Model.reaches m.old (operation_number operation) address length }
{
    match operation {
        Operation::Vep => {
            let behind = wrapped(lr(m), length);
            return_to(m, behind);
            jump(m, address)
        }
        Operation::Jump => jump(m, address),
        Operation::Add | Operation::Store | Operation::And | Operation::Increment => {
            if guarded(address) {
                return fault(m, Fault::Protected);
            }
            work(m, operation, address);
            done(m, length)
        }
    }
}

// The address, indexed where X and XN say so.
#[tactic(auto, using(crate::proofs::Laws::codes))]
pub fn indexed(m: &Memory, index: u8, address: u16) -> u16
    requires { address < 8192 }
    ensures { (result ≡ Model.indexed m.now index address) × (result < 8192) }
{
    if map::INDEX_BIT <= index {
        let register = address_at(m, map::X_REGISTERS + 2 * wide(index % map::INDEX_BIT));
        return wrapped(address, register);
    }
    address
}

// CODE1 and the address that it is done at, indexed and, if the bit is set, indirect; or the fault that comes before.
#[tactic(auto, using(crate::proofs::Laws::targets))]
fn target(m: &Memory, field: u8, operation: u8, address: u16) -> Result<(Operation, u16), Fault>
    requires { address < 8192 }
    ensures { (result ≡ Target.target m.now field operation address) × IfOk result (λ t. t.1 < 8192) }
{
    let operation = Operation::try_from(operation)?;
    let place = indexed(m, field % map::INDIRECT_BIT, address);
    if field < map::INDIRECT_BIT {
        return Ok((operation, place));
    }
    if clear(2, place) {
        return Ok((operation, address_at(m, place)));
    }
    Err(Fault::Protected)
}

#[tactic(auto, using(crate::proofs::Laws::targets))]
pub fn thirteen(m: &mut Memory, field: u8, operation: u8, address: u16, length: u16) -> Answer
    requires { (address < 8192) × (length < 8192) }
    ensures { gives (answered result) m.new ≡ Model.thirteen m.old field operation address length }
{
    match target(m, field, operation, address) {
        Ok((operation, place)) => reach(m, operation, place, length),
        Err(found) => fault(m, found),
    }
}
