// The kernel's types, and the methods of the register record. What they mean is in specs/.
#![tactic(auto)]

pub mod fault;
pub mod instructions;
pub mod layout;
pub mod map;
pub mod refusal;

ghost use Rattle.std.specs.Prelude.{◌≡◌, ◌<◌, ◌+◌, ◌*◌, length};
ghost use Rattle.model.specs.Processor as Processor;
ghost use Rattle.model.specs.Bytes as Model;

pub use fault::Fault;
pub use refusal::{Broken, Class, Refusal};
use std::marker::Model;

// "8,192 words of 8 bits".
pub type Memory = [u8; map::MEMORY_WORDS];

// A control page's number, and a processor's name: both small, never mixed.
#[derive(Clone, Copy, PartialEq, Eq)]
pub struct ControlPage(pub u8);

#[derive(Clone, Copy, PartialEq, Eq)]
pub struct Name(pub u8);

// A processor's registers by value. A host may name any of the first seven out of range, so they are wide.
#[derive(Clone, Copy)]
pub struct Registers {
    pub a: u16,
    pub s: u16,
    pub p: u16,
    pub z: u16,
    pub ci: u16,
    pub lr: u16,
    pub w: u16,
    pub stopped: u16,
}

// What a processor has while another runs: its registers, and words 4-6 and 16-31 of page 0.
#[derive(Clone, Copy)]
pub struct Context {
    pub registers: Registers,
    pub words: [u8; map::KEPT_WORDS],
}

// What an instruction is given, directly or by EXI: its field (a code, NI or I X XN), the number behind it (flag, priority, CODE1, or EXI's
// X XN), W, and an address; WIN's IK and count. What an instruction does not have is 0.
#[derive(Clone, Copy)]
pub struct Arguments {
    pub field: u8,
    pub second: u8,
    pub w: u8,
    pub address: u16,
    pub interrupt: u8,
    pub count: u8,
}

impl Model for Arguments {
    ghost use Rattle.std.specs.Prelude.{◌<◌};
    ghost use Rattle.model.specs.Given.{Given};

    ghost Value = { Given };

    ghost view = { λ a. record { field = a.field; second = a.second; w = a.w; address = a.address; interrupt = a.interrupt; count = a.count } };

    ghost invariant = { λ a. (a.field < 16) × (a.second < 16) × (a.w < 16) × (a.address < 8192) };

    ghost inverse = { λ g. record { field = g.field; second = g.second; w = g.w; address = g.address; interrupt = g.interrupt; count = g.count } };
}

impl Arguments {
    ghost use Rattle.std.specs.Prelude.{◌≡◌, ◌<◌};
    ghost use Rattle.model.specs.Instruction as Instruction;

    // A field, the number behind it, W and an address; or WIN's IK and count.
    pub fn of(field: u8, second: u8, w: u8, address: u16) -> Self
        requires { (field < 16) × (second < 16) × (w < 16) × (address < 8192) }
        ensures { result ≡ Instruction.arguments field second w address }
    {
        Self {
            field,
            second,
            w,
            address,
            interrupt: 0,
            count: 0,
        }
    }

    pub fn counted(interrupt: u8, count: u8) -> Self
        ensures { result ≡ Instruction.counted_arguments interrupt count }
    {
        Self {
            field: 0,
            second: 0,
            w: 0,
            address: 0,
            interrupt,
            count,
        }
    }
}

// What a call that is not refused answers. Handed out: the program's address, and that of n+1 or of the arguments. A fault with the name of who made it.
#[derive(Clone, Copy, PartialEq, Eq)]
pub enum Answer {
    Done,
    Waits,
    HandedOut(u16, u16),
    Fault(Fault, Name),
}

// Settings: a further processor, as an entry of a block names it.
#[derive(Clone, Copy)]
pub struct Entry {
    pub name: u8,
    pub priority: u8,
    pub w: u8,
    pub address: u16,
}

// What a trailer says: how far back the newest block begins, its version, and how many entries it has.
#[derive(Clone, Copy)]
pub struct Trailer {
    pub distance: u16,
    pub version: u8,
    pub count: u8,
}

// Which words differ: which of two memories is meant.
#[derive(Clone, Copy)]
pub enum Side {
    First,
    Second,
}

// What is compared of a processor's state: the stopped and the waiting bit, whether it runs, the queue it waits in, its reason.
#[derive(Clone, Copy)]
pub struct State {
    pub stopped: u8,
    pub waiting: u8,
    pub runs: u8,
    pub queue: u16,
    pub reason: u8,
}

// In what two processors of one name differ.
#[derive(Clone, Copy)]
pub struct Parts {
    pub state: bool,
    pub priority: bool,
    pub q1: bool,
    pub q2: bool,
}

// What is said of a name, where something is.
#[derive(Clone, Copy)]
pub enum Said {
    OnlyIn(Side),
    DiffersIn(Parts),
}

// A line of what is printed of two memories: an address with both words, a refusal of one of the two, what is said of a name, or that they are the same.
#[derive(Clone, Copy)]
pub enum Line {
    Word(u16, u8, u8),
    Refused(Side, Refusal),
    Processor(u8, Said),
    Same,
}

impl ControlPage {
    // A word of the page, by its number.
    pub fn word(self, m: &Memory, number: u16) -> u8
        requires { number < 32 }
        ensures { result ≡ Model.word m.now self.0 number }
    {
        let n = self.0;
        let a = (n as usize) * map::PAGE_WORDS + (number as usize);
        m[a]
    }

    // The value becomes that word of the page.
    pub fn store(self, m: &mut Memory, word: u16, value: u8)
        requires { word < 32 }
        ensures { m.new ≡ Model.store m.old self.0 word value }
    {
        let n = self.0;
        let a = (n as usize) * map::PAGE_WORDS + (word as usize);
        m[a] = value;
    }

    // The address of a word of the page.
    pub fn place(self, word: u16) -> u16
        requires { word < 32 }
        ensures { (result ≡ self.0 * 32 + word) × (result < 8192) }
    {
        wide(self.0) * map::PAGE_SIZE + word
    }
}

// A word as a number that can be reckoned with.
pub fn wide(x: u8) -> u16
    ensures { (result ≡ x) × (result < 256) }
{
    x as u16
}

impl Registers {
    // The registers of the processor of a page.
    #[tactic(auto, unfolding(crate::specs::Processor::registers_of))]
    pub fn of(m: &Memory, page: ControlPage) -> Self
        ensures { (result ≡ Model.registers_of m.now page.0) × (result.lr < 8192) × (result.a < 256) }
    {
        let a = wide(page.word(m, map::WORD_A));
        let s = wide(page.word(m, map::WORD_S));
        let f = wide(page.word(m, map::HIGH_LR));
        let l = wide(page.word(m, map::LOW_LR));
        let x = wide(page.word(m, map::STATE));
        Self {
            a,
            s,
            p: f / map::P_BIT,
            z: f % map::P_BIT / map::Z_BIT,
            ci: f % map::Z_BIT / map::CI_BIT,
            lr: f % map::HIGHS_WIDE * map::WORD_VALUES + l,
            w: x % map::W_VALUES,
            stopped: x / map::STOP_BIT_WIDE,
        }
    }

    // A record that is zero but for LR and W.
    pub fn starting_at(lr: u16, w: u16) -> Self
        ensures { result ≡ Processor.starting_at lr w }
    {
        Self {
            a: 0,
            s: 0,
            p: 0,
            z: 0,
            ci: 0,
            lr,
            w,
            stopped: 0,
        }
    }

    // LR grows by the length, modulo 8,192.
    pub fn advance(mut self, length: u16) -> Self
        requires { (self.lr < 8192) × (length < 8192) }
        ensures { (result ≡ Processor.advanced self length) × (result.lr < 8192) }
    {
        self.lr = (self.lr + length) % map::MEMORY_SIZE;
        self
    }

    pub fn set_accumulator(mut self, value: u16) -> Self
        ensures { result ≡ Processor.accumulated self value }
    {
        self.a = value;
        self
    }

    // LR becomes the target.
    pub fn jump(mut self, target: u16) -> Self
        ensures { result ≡ Processor.jumped self target }
    {
        self.lr = target;
        self
    }

    // P becomes the carry.
    pub fn set_carry(mut self, carry: u16) -> Self
        ensures { result ≡ Processor.carried self carry }
    {
        self.p = carry;
        self
    }

    pub fn clear_stopped(mut self) -> Self
        ensures { result ≡ Processor.started_once self }
    {
        self.stopped = 0;
        self
    }

    pub fn set_stopped(mut self) -> Self
        ensures { result ≡ Processor.stopped_once self }
    {
        self.stopped = map::ONE_BIT;
        self
    }

    // P, Z, CI and LR, words 10 and 11 of a page, each modulo its field.
    #[tactic(auto, unfolding(crate::specs::Processor::set_flags_lr))]
    fn set_flags_lr(self, m: &mut Memory, page: ControlPage)
        ensures { m.new ≡ Model.set_flags_lr m.old page.0 self }
    {
        let h = self.p % map::BITS * map::P_BIT
            + self.z % map::BITS * map::Z_BIT
            + self.ci % map::BITS * map::CI_BIT
            + self.lr / map::WORD_VALUES % map::HIGHS_WIDE;
        page.store(m, map::HIGH_LR, h as u8);
        page.store(m, map::LOW_LR, (self.lr % map::WORD_VALUES) as u8);
    }

    // The seven registers go to a page: words 8-11 and the low four bits of word 12.
    #[tactic(auto, unfolding(crate::specs::Processor::set_registers_of, crate::specs::Processor::set_flags_lr))]
    pub fn set_on(self, m: &mut Memory, page: ControlPage)
        ensures { m.new ≡ Model.set_registers_of m.old page.0 self }
    {
        page.store(m, map::WORD_A, (self.a % map::WORD_VALUES) as u8);
        page.store(m, map::WORD_S, (self.s % map::WORD_VALUES) as u8);
        self.set_flags_lr(m, page);
        let x = page.word(m, map::STATE);
        page.store(
            m,
            map::STATE,
            x / map::FIELD * map::FIELD + (self.w % map::W_VALUES) as u8,
        );
    }

    // The record is handed back to its page whole, the stopped bit too.
    #[tactic(auto, unfolding(crate::specs::Processor::hand_back, crate::specs::Processor::set_registers_of, crate::specs::Processor::set_flags_lr))]
    pub fn hand_back(self, m: &mut Memory, page: ControlPage)
        ensures { m.new ≡ Model.hand_back m.old page.0 self }
    {
        self.set_on(m, page);
        let x = page.word(m, map::STATE);
        page.store(
            m,
            map::STATE,
            (self.stopped % map::BITS) as u8 * map::STOP_BIT + x % map::STOP_BIT,
        );
    }

    // Whether each value fits its register.
    #[tactic(auto, using(crate::proofs::Tests::tests), unfolding(crate::specs::Processor::in_range))]
    pub fn in_range(self) -> bool
        ensures { result ≡ Processor.in_range self }
    {
        if map::A_WORD_WIDE < self.a {
            return false;
        }
        if map::A_WORD_WIDE < self.s {
            return false;
        }
        if map::ONE_BIT < self.p {
            return false;
        }
        if map::ONE_BIT < self.z {
            return false;
        }
        if map::ONE_BIT < self.ci {
            return false;
        }
        if map::LAST_ADDRESS < self.lr {
            return false;
        }
        self.w <= map::FOUR_BITS_WIDE
    }
}
