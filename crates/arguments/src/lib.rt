// Instructions: what the table says of a code by its number, and the arguments of each code, direct and for EXI.
#![tactic(auto)]

ghost use Rattle.std.specs.Prelude.{◌≡◌, ◌<◌, ◌≤◌};
ghost use Rattle.model.specs.Address.{wrapped};
ghost use Rattle.model.specs.Coded.{shape_number};
ghost use Rattle.model.specs.Instruction as Instruction;
ghost use Rattle.model.specs.Bytes as Model;

use model::instructions::{Code, Row, Shape};
use model::{Arguments, Memory, map, wide};
use words::{address_at, at, wrapped};

// The row of a code by its number; one that has none is as short as any, and has no arguments.
fn row_for(code: u8) -> Row
    ensures { (result.length ≡ Instruction.length_for code) × (result.count ≡ Instruction.count_for code)
        × (shape_number result.shape ≡ Instruction.shape_for code) × (2 ≤ result.length) × (result.length ≤ 5) × (result.count ≤ 5) }
{
    match Code::try_from(code) {
        Ok(code) => code.row(),
        Err(_) => Row {
            length: 2,
            count: 0,
            shape: Shape::Bare,
        },
    }
}

// Its length, how many argument words it has for EXI, and their shape.
pub fn length_for(code: u8) -> u8
    ensures { (result ≡ Instruction.length_for code) × (2 ≤ result) × (result ≤ 5) }
{
    row_for(code).length
}

pub fn count_for(code: u8) -> u8
    ensures { (result ≡ Instruction.count_for code) × (result ≤ 5) }
{
    row_for(code).count
}

pub fn shape_for(code: u8) -> u8
    ensures { (result ≡ Instruction.shape_for code) × (result ≤ 6) }
{
    row_for(code).shape as u8
}

// The words from a start on, in which an instruction's arguments stand.
#[derive(Drop)]
pub struct Words<'m> {
    pub m: &'m Memory,
    pub start: u16,
    ghost inside: { start < 8192 },
}

impl<'m> Words<'m> {
    pub fn new(m: &'m Memory, start: u16) -> Self
        requires { start < 8192 }
        ensures { (result.m.now ≡ m.now) × (result.start ≡ start) }
    {
        Self { m, start }
    }

    // One by its index, its low four bits, and the address that begins there.
    fn argument(&self, index: u8) -> u8
        ensures { result ≡ Model.argument self.now.m.now self.now.start index }
    {
        at(self.m, wrapped(self.start, wide(index)))
    }

    fn four(&self, index: u8) -> u8
        ensures { (result ≡ Model.four_at self.now.m.now self.now.start index) × (result < 16) }
    {
        self.argument(index) % map::FIELD
    }

    fn address(&self, index: u8) -> u16
        ensures { (result ≡ Model.address_at self.now.m.now (wrapped self.now.start index)) × (result < 8192) }
    {
        address_at(self.m, wrapped(self.start, wide(index)))
    }

    // A direct instruction has its flag or CODE1 in the top three bits of word 2; EXI in word 1 of its arguments.
    fn three(&self) -> u8
        ensures { (result ≡ Model.three_at self.now.m.now self.now.start) × (result < 16) }
    {
        self.argument(2) / map::HIGHS
    }

    fn flag(&self) -> u8
        ensures { (result ≡ Model.flag_at self.now.m.now self.now.start) × (result < 16) }
    {
        self.argument(1) % map::FLAGS
    }

    #[tactic(auto, unfolding(model::specs::Instruction::direct_creating))]
    fn direct_creating(&self) -> Arguments
        ensures { result ≡ Model.direct_creating self.now.m.now self.now.start }
    {
        let word = self.argument(2);
        Arguments::of(
            self.four(1),
            word / map::FIELD,
            word % map::FIELD,
            self.address(3),
        )
    }

    // The arguments of the instruction at the start, by their shape.
    #[tactic(auto, unfolding(model::specs::Instruction::direct, model::specs::Instruction::direct_counted, model::specs::Coded::shape_number))]
    pub fn direct(&self, shape: Shape) -> Arguments
        ensures { result ≡ Model.direct self.now.m.now self.now.start (shape_number shape) }
    {
        match shape {
            Shape::Bare => Arguments::of(0, 0, 0, 0),
            Shape::Plain => Arguments::of(self.four(1), 0, 0, 0),
            Shape::Addressed => Arguments::of(self.four(1), 0, 0, self.address(2)),
            Shape::Counted => Arguments::counted(self.argument(2), self.argument(3)),
            Shape::Flagged => Arguments::of(self.four(1), self.three(), 0, 0),
            Shape::Complete => Arguments::of(self.four(1), self.three(), 0, self.address(2)),
            Shape::Creating => self.direct_creating(),
        }
    }

    // EXI's arguments at the start, by their shape. Not one function with the last: not only where a field stands differs, but also how flags, and CRP's
    // priority and W, are cut from their words.
    #[tactic(auto, unfolding(model::specs::Instruction::pointed, model::specs::Instruction::pointed_creating, model::specs::Coded::shape_number))]
    pub fn pointed(&self, shape: Shape) -> Arguments
        ensures { result ≡ Model.pointed self.now.m.now self.now.start (shape_number shape) }
    {
        match shape {
            Shape::Bare => Arguments::of(0, 0, 0, 0),
            Shape::Plain => Arguments::of(self.four(0), 0, 0, 0),
            Shape::Addressed => Arguments::of(self.four(0), 0, 0, self.address(1)),
            Shape::Counted => Arguments::counted(self.argument(0), self.argument(1)),
            Shape::Flagged => Arguments::of(self.four(0), self.flag(), 0, 0),
            Shape::Complete => Arguments::of(self.four(0), self.flag(), 0, self.address(2)),
            Shape::Creating => Arguments::of(
                self.four(0),
                self.four(1),
                self.four(2),
                self.address(3),
            ),
        }
    }

    // Whether so many argument words, of that shape, lie within their fields.
    pub fn within(&self, shape: Shape, count: u8) -> bool
        requires { count ≤ 5 }
        ensures { result ≡ Model.within count self.now.m.now self.now.start (shape_number shape) }
    {
        let limits = shape.limits();
        (0..count).all(|i| self.argument(i) <= limits[usize::from(i)])
    }
}
