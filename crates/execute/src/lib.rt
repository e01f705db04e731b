// One virtual instruction, from the word at LR on: the order of faults, the decoder, and EXI by a depth that falls from 1 to 0.
#![tactic(auto)]

ghost use Rattle.std.specs.Prelude.{◌≡◌, ◌<◌, ◌≤◌};
ghost use Rattle.model.specs.Answer.Outcome.{gives};
ghost use Rattle.model.specs.Coded.{answered, code_number, told};
ghost use Rattle.model.specs.Instruction as Instruction;
ghost use Rattle.model.specs.Bytes as Model;
ghost use Rattle.execute.specs.Given as Given;
ghost use Rattle.execute.specs.Orders.{order_of};

use answers::fault;
use arguments::{Words, length_for};
use codes::{cvi, dvi, gin, indexed, is_of_kind, program, thirteen, win};
use creating::{Newcomer, Order, crp, named, st2};
use mail::Note;
use model::instructions::{Code, FIRST_WORD, Kind};
use model::{Answer, Arguments, Fault, Memory, Name, Refusal, map, wide};
use sending::{rme, sme, tme, wnm};
use words::{at, clear, guarded, wrapped};

// A code that is not built in: an own one is handed out, with its program's address and this one; else it is absent.
#[tactic(auto, using(crate::proofs::Laws::foreign_codes), unfolding(model::specs::Coded::answered))]
fn foreign(m: &mut Memory, code: u8, address: u16) -> Answer
    ensures { gives (answered result) m.new ≡ Model.foreign m.old code address }
{
    if is_of_kind(m, code, Kind::Own) {
        return Answer::HandedOut(program(m, code), address);
    }
    fault(m, Fault::AbsentCode)
}

// Whether EXI meets a code that is not built in; an EXI of EXI is left to the depth.
#[tactic(auto, using(crate::proofs::Laws::foreign_codes))]
fn is_foreign(m: &Memory, code: u8) -> bool
    ensures { result ≡ Model.is_foreign m.now code }
{
    code != Code::Exi as u8 && !is_of_kind(m, code, Kind::BuiltIn)
}

// The instruction with that code at the address, and what it is given; or the fault that comes before.
#[tactic(auto, using(crate::proofs::Laws::given))]
fn direct(m: &Memory, address: u16, code: u8) -> Result<(Code, Arguments), Fault>
    requires { address < 8192 }
    ensures { result ≡ Given.direct m.now address code }
{
    let code = Code::try_from(code)?;
    let row = code.row();
    if clear(row.length - 2, wrapped(address, 2)) {
        return Ok((code, Words::new(m, address).direct(row.shape)));
    }
    Err(Fault::Protected)
}

// The same of the instruction that EXI points at, with its arguments at the start. An EXI of EXI has none: the depth answers it.
#[tactic(auto, using(crate::proofs::Laws::given))]
fn pointed(m: &Memory, code: u8, start: u16) -> Result<(Code, Arguments), Fault>
    requires { start < 8192 }
    ensures { result ≡ Given.pointed m.now code start }
{
    let code = Code::try_from(code)?;
    let row = code.row();
    if !clear(row.count, start) {
        return Err(Fault::Protected);
    }
    let words = Words::new(m, start);
    if words.within(row.shape, row.count) {
        return Ok((code, words.pointed(row.shape)));
    }
    Err(Fault::BadArgument)
}

// Whom CRP makes: NI, priority, W and LR.
fn newcomer(given: Arguments) -> Newcomer
    ensures { (result.name.0 ≡ given.field) × (result.priority ≡ given.second) × (result.w ≡ given.w) × (result.address ≡ given.address) }
{
    Newcomer {
        name: Name(given.field),
        priority: given.second,
        w: given.w,
        address: given.address,
    }
}

// What EXI advances by, whatever it runs.
#[tactic(auto, unfolding(model::specs::Coded::code_number))]
fn exi_length() -> u16
    ensures { (result ≡ Instruction.length_for Instruction.exi_code) × (result ≤ 5) }
{
    wide(Code::Exi.row().length)
}

// What ST1, STP and DEP order; no other code is asked.
fn order_of(code: Code) -> Order
    ensures { result ≡ order_of code }
{
    match code {
        Code::St1 => Order::Start,
        Code::Stp => Order::Stop,
        _ => Order::Delete,
    }
}

// The instruction with the code and what it is given; depth more EXIs are allowed.
#[cycle(execute_exi_step)]
#[tactic(auto, unfolding(model::specs::Execute::run, model::specs::Coded::code_number))]
fn run(m: &mut Memory, code: Code, given: Arguments, length: u16, depth: u8) -> Answer
    requires { length < 8192 }
    ensures { gives (answered result) m.new ≡ Model.execute depth m.old (code_number code) given length }
{
    let name = Name(given.field);
    let note = Note {
        name,
        flag: given.second,
    };
    match code {
        Code::Cvi => cvi(m, given.field, given.address, length),
        Code::Dvi => dvi(m, given.field, length),
        Code::Gin => gin(m, length),
        Code::Win => win(m, given.interrupt, given.count, length),
        Code::Sme => sme(m, note, given.address, length),
        Code::Wnm => wnm(m, note, length),
        Code::Rme => rme(m, note, given.address, length),
        Code::Tme => tme(m, note, given.address, length),
        Code::St1 | Code::Stp | Code::Dep => named(m, order_of(code), name, length),
        Code::St2 => st2(m, name, given.address, length),
        Code::Crp => crp(m, newcomer(given), length),
        Code::Thirteen => thirteen(m, given.field, given.second, given.address, length),
        Code::Exi => exi_step(m, given, depth),
    }
}

// The same of a code by its number; a number that names none is fault 1.
#[cycle(execute_exi_step)]
#[tactic(auto, using(crate::proofs::Laws::numbers))]
pub fn execute(m: &mut Memory, code: u8, given: Arguments, length: u16, depth: u8) -> Answer
    requires { length < 8192 }
    ensures { gives (answered result) m.new ≡ Model.execute depth m.old code given length }
{
    match Code::try_from(code) {
        Ok(code) => run(m, code, given, length, depth),
        Err(absent) => fault(m, absent),
    }
}

// EXI: it runs another instruction by the same rules, and advances by 4.
#[cycle(execute_exi_step)]
#[tactic(auto, using(crate::proofs::Laws::exis))]
fn exi_step(m: &mut Memory, given: Arguments, depth: u8) -> Answer
    ensures { gives (answered result) m.new ≡ Model.exi depth m.old given }
{
    if depth == 0 {
        return fault(m, Fault::ExiOfExi);
    }
    let start = indexed(m, given.second, given.address);
    if is_foreign(m, given.field) {
        return foreign(m, given.field, start);
    }
    match pointed(m, given.field, start) {
        Ok((_, pointed)) => execute(m, given.field, pointed, exi_length(), depth - 1),
        Err(found) => fault(m, found),
    }
}

// The instruction at the address with that code, which is built in.
#[tactic(auto, using(crate::proofs::Laws::executing))]
fn taken(m: &mut Memory, address: u16, code: u8) -> Answer
    requires { address < 8192 }
    ensures { gives (answered result) m.new ≡ Model.taken m.old address code }
{
    match direct(m, address, code) {
        Ok((_, given)) => execute(m, code, given, wide(length_for(code)), 1),
        Err(found) => fault(m, found),
    }
}

#[tactic(auto, using(crate::proofs::Laws::executing))]
fn decoded(m: &mut Memory, address: u16, code: u8) -> Answer
    requires { address < 8192 }
    ensures { gives (answered result) m.new ≡ Model.decoded m.old address code }
{
    if is_of_kind(m, code, Kind::BuiltIn) {
        return taken(m, address, code);
    }
    foreign(m, code, wrapped(address, 1))
}

#[tactic(auto, using(crate::proofs::Laws::executing))]
fn coded(m: &mut Memory, address: u16) -> Answer
    requires { address < 8192 }
    ensures { gives (answered result) m.new ≡ Model.coded m.old address }
{
    let behind = wrapped(address, 1);
    if guarded(behind) {
        return fault(m, Fault::Protected);
    }
    let word = at(m, behind);
    decoded(m, address, word / map::FIELD)
}

// The instruction at the address.
#[tactic(auto, using(crate::proofs::Laws::fetching), unfolding(model::specs::Coded::told, model::specs::Coded::refusal))]
pub fn fetched(m: &mut Memory, address: u16) -> Result<Answer, Refusal>
    requires { address < 8192 }
    ensures { gives (told result) m.new ≡ Model.fetched m.old address }
{
    if guarded(address) {
        return Ok(fault(m, Fault::Protected));
    }
    if at(m, address) == FIRST_WORD {
        return Ok(coded(m, address));
    }
    Err(Refusal::NoInstruction)
}
