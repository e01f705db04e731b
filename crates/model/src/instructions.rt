// Instructions: "Word n is 224; n+1 has the code and a four-bit field." The codes by their names, kinds of code, CODE1 of code 13, the shapes
// of arguments, and what the table says of each code.
ghost use Rattle.std.specs.Prelude.{◌≡◌, ◌<◌, ◌≤◌, ℕ, get_or};
ghost use Rattle.model.specs.Instruction as Instruction;
ghost use Rattle.model.specs.Coded.{code_number, code_of, kind_number, kind_of, operation_of, shape_number};

use crate::fault::Fault;
use crate::map;

pub const FIRST_WORD: u8 = 224;

// The codes that are built in; of the sixteen that a field holds, 15 has none.
#[derive(Clone, Copy, PartialEq, Eq)]
pub enum Code {
    Cvi = 0,
    Dvi = 1,
    Gin = 2,
    Win = 3,
    Sme = 4,
    Wnm = 5,
    Rme = 6,
    Tme = 7,
    St1 = 8,
    Stp = 9,
    St2 = 10,
    Crp = 11,
    Dep = 12,
    Thirteen = 13,
    Exi = 14,
}

// "4 deleting code 0 or 1": the first that may go.
pub const FIRST_GOING: u8 = 2;

// Page 8: "kind in three bits (0 absent, 1 built in, 2 own)".
#[derive(Clone, Copy, PartialEq, Eq)]
pub enum Kind {
    Absent = 0,
    BuiltIn = 1,
    Own = 2,
}

// What no kind is numbered by; it stands only in a memory that is not well formed.
#[derive(Clone, Copy, PartialEq, Eq)]
pub struct NoKind(pub u8);

// The last two by their numbers, and the word of a code that is built in.
pub const BUILT_IN: u8 = Kind::BuiltIn as u8;

pub const OWN: u8 = Kind::Own as u8;

pub const BUILT_IN_WORD: u8 = 32;

// "CODE1 0-5 below".
#[derive(Clone, Copy, PartialEq, Eq)]
pub enum Operation {
    Add = 0,
    Store = 1,
    And = 2,
    Increment = 3,
    Jump = 4,
    Vep = 5,
}

// "CVI and ST2 field, A; DVI, ST1, STP, DEP field; GIN none; WIN IK, count; WNM NI, F; SME, RME, TME NI, F, A; CRP NI, priority, W, A; 13 its I X
// XN, CODE1, A".
#[derive(Clone, Copy, PartialEq, Eq)]
pub enum Shape {
    Bare = 0,
    Plain = 1,
    Addressed = 2,
    Counted = 3,
    Flagged = 4,
    Complete = 5,
    Creating = 6,
}

// What the table says of a code: its length, how many argument words it has for EXI, and their shape.
#[derive(Clone, Copy)]
pub struct Row {
    pub length: u8,
    pub count: u8,
    pub shape: Shape,
}

// CVI DVI GIN WIN SME WNM RME TME ST1 STP ST2 CRP DEP 13 EXI.
const TABLE: [Row; 15] = [
    Row {
        length: 4,
        count: 3,
        shape: Shape::Addressed,
    },
    Row {
        length: 2,
        count: 1,
        shape: Shape::Plain,
    },
    Row {
        length: 2,
        count: 0,
        shape: Shape::Bare,
    },
    Row {
        length: 4,
        count: 2,
        shape: Shape::Counted,
    },
    Row {
        length: 4,
        count: 4,
        shape: Shape::Complete,
    },
    Row {
        length: 3,
        count: 2,
        shape: Shape::Flagged,
    },
    Row {
        length: 4,
        count: 4,
        shape: Shape::Complete,
    },
    Row {
        length: 4,
        count: 4,
        shape: Shape::Complete,
    },
    Row {
        length: 2,
        count: 1,
        shape: Shape::Plain,
    },
    Row {
        length: 2,
        count: 1,
        shape: Shape::Plain,
    },
    Row {
        length: 4,
        count: 3,
        shape: Shape::Addressed,
    },
    Row {
        length: 5,
        count: 5,
        shape: Shape::Creating,
    },
    Row {
        length: 2,
        count: 1,
        shape: Shape::Plain,
    },
    Row {
        length: 4,
        count: 4,
        shape: Shape::Complete,
    },
    Row {
        length: 4,
        count: 0,
        shape: Shape::Complete,
    },
];

impl TryFrom<u8> for Code {
    type Error = Fault;

    ghost try_from_gives = { λ n r. r ≡ code_of n };

    #[tactic(auto, unfolding(crate::specs::Coded::code_of))]
    fn try_from(number: u8) -> Result<Self, Fault> {
        match number {
            0 => Ok(Code::Cvi),
            1 => Ok(Code::Dvi),
            2 => Ok(Code::Gin),
            3 => Ok(Code::Win),
            4 => Ok(Code::Sme),
            5 => Ok(Code::Wnm),
            6 => Ok(Code::Rme),
            7 => Ok(Code::Tme),
            8 => Ok(Code::St1),
            9 => Ok(Code::Stp),
            10 => Ok(Code::St2),
            11 => Ok(Code::Crp),
            12 => Ok(Code::Dep),
            13 => Ok(Code::Thirteen),
            14 => Ok(Code::Exi),
            _ => Err(Fault::AbsentCode),
        }
    }
}

impl From<Kind> for u8 {
    ghost from_gives = { λ k n. (n ≡ kind_number k) × (n < 8) };

    fn from(kind: Kind) -> u8 {
        kind as u8
    }
}

impl TryFrom<u8> for Kind {
    type Error = NoKind;

    ghost try_from_gives = { λ n r. r ≡ kind_of n };

    #[tactic(auto, unfolding(crate::specs::Coded::kind_of))]
    fn try_from(number: u8) -> Result<Self, NoKind> {
        match number {
            0 => Ok(Kind::Absent),
            1 => Ok(Kind::BuiltIn),
            2 => Ok(Kind::Own),
            _ => Err(NoKind(number)),
        }
    }
}

impl TryFrom<u8> for Operation {
    type Error = Fault;

    ghost try_from_gives = { λ n r. r ≡ operation_of n };

    #[tactic(auto, unfolding(crate::specs::Coded::operation_of))]
    fn try_from(number: u8) -> Result<Self, Fault> {
        match number {
            0 => Ok(Operation::Add),
            1 => Ok(Operation::Store),
            2 => Ok(Operation::And),
            3 => Ok(Operation::Increment),
            4 => Ok(Operation::Jump),
            5 => Ok(Operation::Vep),
            _ => Err(Fault::BadArgument),
        }
    }
}

impl Code {
    pub fn row(self) -> Row
        ensures { (result.length ≡ Instruction.length_for (code_number self)) × (result.count ≡ Instruction.count_for (code_number self))
            × (shape_number result.shape ≡ Instruction.shape_for (code_number self)) × (2 ≤ result.length) × (result.length ≤ 5) × (result.count ≤ 5) }
    {
        TABLE[self as usize]
    }
}

impl Shape {
    // The most that each of up to five argument words may be.
    #[tactic(auto, unfolding(crate::specs::Coded::shape_number))]
    pub fn limits(self) -> [u8; 5]
        ensures { (i : ℕ) → i < 5 → get_or result i 0 ≡ Instruction.limit_for (shape_number self) i }
    {
        let (word, four, three, five) = (
            map::A_WORD,
            map::FOUR_BITS,
            map::THREE_BITS,
            map::FIVE_BITS,
        );
        match self {
            Shape::Bare | Shape::Counted => [word; 5],
            Shape::Plain => [four, word, word, word, word],
            Shape::Addressed => [four, five, word, word, word],
            Shape::Flagged => [four, three, word, word, word],
            Shape::Complete => [four, three, five, word, word],
            Shape::Creating => [four, four, four, five, word],
        }
    }
}
