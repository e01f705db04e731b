// Instructions: ST1, STP, ST2, CRP and DEP. The length is what LR grows by.
#![tactic(auto)]

ghost use Rattle.std.specs.Prelude.{◌≡◌, ◌<◌};
ghost use Rattle.model.specs.Processor as Processor;
ghost use Rattle.model.specs.Answer.Outcome.{gives};
ghost use Rattle.model.specs.Coded.{answered};
ghost use Rattle.model.specs.Bytes as Model;
ghost use Rattle.creating.specs.Ordered.{code_of};

use answers::{done, fault, wait_for_page};
use deleting::delete;
use model::{Answer, ControlPage, Fault, Memory, Name, Registers, map, wide};
use pages::take_page;
use processors::{page_of, priority, running, set_lr, start, stop};
use queues::Queue;
use words::zero;

// What ST1, STP and DEP do with a processor.
#[derive(Clone, Copy, PartialEq, Eq)]
pub enum Order {
    Start,
    Stop,
    Delete,
}

#[tactic(auto, unfolding(model::specs::Operate::st1))]
fn st1(m: &mut Memory, page: ControlPage, length: u16) -> Answer
    requires { length < 8192 }
    ensures { gives (answered result) m.new ≡ Model.st1 m.old page.0 length }
{
    start(m, page);
    done(m, length)
}

#[tactic(auto, unfolding(model::specs::Operate::stp))]
fn stp(m: &mut Memory, page: ControlPage, length: u16) -> Answer
    requires { length < 8192 }
    ensures { gives (answered result) m.new ≡ Model.stp m.old page.0 length }
{
    stop(m, page);
    done(m, length)
}

#[tactic(auto, using(processors::proofs::Ways::ways), unfolding(model::specs::Operate::dep, model::specs::Coded::fault_number))]
fn dep(m: &mut Memory, page: ControlPage, length: u16) -> Answer
    requires { length < 8192 }
    ensures { gives (answered result) m.new ≡ Model.dep m.old page.0 length }
{
    let state = page.word(m, map::STATE);
    if map::STOP_BIT <= state {
        delete(m, page);
        return done(m, length);
    }
    fault(m, Fault::NotStopped)
}

// The order, on the processor of the page.
#[tactic(auto, unfolding(model::specs::Operate::on_page))]
fn on_page(m: &mut Memory, order: Order, page: ControlPage, length: u16) -> Answer
    requires { length < 8192 }
    ensures { gives (answered result) m.new ≡ Model.on_page m.old (code_of order) page.0 length }
{
    match order {
        Order::Start => st1(m, page, length),
        Order::Stop => stp(m, page, length),
        Order::Delete => dep(m, page, length),
    }
}

// The same of the processor of that name.
#[tactic(auto, using(crate::proofs::Laws::by_name), unfolding(model::specs::Coded::fault_number))]
pub fn named(m: &mut Memory, order: Order, name: Name, length: u16) -> Answer
    requires { length < 8192 }
    ensures { gives (answered result) m.new ≡ Model.named m.old (code_of order) name.0 length }
{
    if name.0 == 0 {
        return fault(m, Fault::BadArgument);
    }
    match page_of(m, name) {
        Some(page) => on_page(m, order, page, length),
        None => fault(m, Fault::NoName),
    }
}

#[tactic(auto, using(crate::proofs::Laws::second_starts), unfolding(model::specs::Coded::fault_number))]
fn st2_found(m: &mut Memory, page: ControlPage, address: u16, length: u16) -> Answer
    requires { length < 8192 }
    ensures { gives (answered result) m.new ≡ Model.st2_found m.old page.0 address length }
{
    let state = page.word(m, map::STATE);
    if state < map::STOP_BIT {
        return fault(m, Fault::NotStartable);
    }
    if state % map::STOP_BIT / map::WAIT_BIT == 0 {
        set_lr(m, page, address);
        start(m, page);
        return done(m, length);
    }
    fault(m, Fault::NotStartable)
}

#[tactic(auto, using(crate::proofs::Laws::by_name), unfolding(model::specs::Coded::fault_number))]
pub fn st2(m: &mut Memory, name: Name, address: u16, length: u16) -> Answer
    requires { length < 8192 }
    ensures { gives (answered result) m.new ≡ Model.st2 m.old name.0 address length }
{
    if name.0 == 0 {
        return fault(m, Fault::BadArgument);
    }
    match page_of(m, name) {
        Some(page) => st2_found(m, page, address, length),
        None => fault(m, Fault::NoName),
    }
}

// What a new processor is made with: its name and priority, W and LR.
#[derive(Clone, Copy)]
pub struct Newcomer {
    pub name: Name,
    pub priority: u8,
    pub w: u8,
    pub address: u16,
    ghost name_fits: { name.0 < 16 },
    ghost priority_fits: { priority < 16 },
}

impl Newcomer {
    // Its registers: it is stopped.
    fn registers(self) -> Registers
        ensures { result ≡ Processor.stopped_once (Processor.starting_at self.address self.w) }
    {
        Registers::starting_at(self.address, wide(self.w)).set_stopped()
    }

    // The page, cleared, gets name, priority, W and LR.
    #[tactic(auto, unfolding(model::specs::Operate::headed))]
    fn head(self, m: &mut Memory, page: ControlPage)
        ensures { m.new ≡ Model.headed m.old page.0 self.name.0 self.priority self.w self.address }
    {
        page.store(m, map::LABEL, self.priority * map::FIELD + self.name.0);
        self.registers().hand_back(m, page);
    }

    // It is made on the page.
    #[tactic(auto, using(crate::proofs::Laws::created_is))]
    pub fn create(self, m: &mut Memory, page: ControlPage)
        ensures { m.new ≡ Model.created m.old page.0 self.name.0 self.priority self.w self.address }
    {
        zero(m, page.place(map::LINK), map::PAGE_SIZE);
        self.head(m, page);
        Queue::processors().join(m, page);
    }
}

fn crp_page(m: &mut Memory, new: Newcomer, length: u16) -> Answer
    requires { length < 8192 }
    ensures { gives (answered result) m.new ≡ Model.crp_page m.old new.name.0 new.priority new.w new.address length }
{
    let runner = running(m);
    match take_page(m, runner) {
        Some(page) => {
            new.create(m, page);
            done(m, length)
        }
        None => wait_for_page(m),
    }
}

// The priority of the one that runs.
#[tactic(auto, using(crate::proofs::Laws::own_is))]
fn own_priority(m: &Memory) -> u8
    ensures { result ≡ Model.priority m.now (Model.running m.now) }
{
    priority(m, running(m))
}

#[tactic(auto, using(crate::proofs::Laws::crps), unfolding(model::specs::Coded::fault_number))]
pub fn crp(m: &mut Memory, new: Newcomer, length: u16) -> Answer
    requires { length < 8192 }
    ensures { gives (answered result) m.new ≡ Model.crp m.old new.name.0 new.priority new.w new.address length }
{
    if new.name.0 == 0 {
        return fault(m, Fault::BadArgument);
    }
    if new.priority == 0 {
        return fault(m, Fault::BadArgument);
    }
    let own = own_priority(m);
    if own < new.priority {
        return fault(m, Fault::AboveItself);
    }
    if page_of(m, new.name).is_some() {
        return fault(m, Fault::NameExists);
    }
    crp_page(m, new, length)
}
