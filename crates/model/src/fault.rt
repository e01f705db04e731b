// Faults, by their numbers: "1 absent code; 2 EXI of EXI; 3 code exists; 4 deleting code 0 or 1; 5 WIN ..; 6 no match in Q2; 7 NI doesn't exist; 8 ST2 and
// NI isn't stopped, or also waits; 9 name exists; 10 NI isn't stopped; 11 protected word; 12 other bad argument". Document 02, 6/13: "CRP with a priority
// higher than that of the processor running it is now fault 13".
ghost use Rattle.std.specs.Prelude.{◌≡◌, ◌<◌};
ghost use Rattle.model.specs.Coded.{fault_number, fault_of};

#[derive(Clone, Copy, PartialEq, Eq)]
pub enum Fault {
    AbsentCode = 1,
    ExiOfExi = 2,
    CodeExists = 3,
    KeptCode = 4,
    BadWait = 5,
    NoMatch = 6,
    NoName = 7,
    NotStartable = 8,
    NameExists = 9,
    NotStopped = 10,
    Protected = 11,
    BadArgument = 12,
    AboveItself = 13,
}

// What no fault is numbered by; it stands only in a memory that is not well formed.
#[derive(Clone, Copy, PartialEq, Eq)]
pub struct NoFault(pub u8);

impl From<Fault> for u8 {
    ghost from_gives = { λ f n. (n ≡ fault_number f) × (n < 16) };

    fn from(fault: Fault) -> u8 {
        fault as u8
    }
}

impl TryFrom<u8> for Fault {
    type Error = NoFault;

    ghost try_from_gives = { λ n r. r ≡ fault_of n };

    #[tactic(auto, unfolding(crate::specs::Coded::fault_of))]
    fn try_from(number: u8) -> Result<Self, NoFault> {
        match number {
            1 => Ok(Fault::AbsentCode),
            2 => Ok(Fault::ExiOfExi),
            3 => Ok(Fault::CodeExists),
            4 => Ok(Fault::KeptCode),
            5 => Ok(Fault::BadWait),
            6 => Ok(Fault::NoMatch),
            7 => Ok(Fault::NoName),
            8 => Ok(Fault::NotStartable),
            9 => Ok(Fault::NameExists),
            10 => Ok(Fault::NotStopped),
            11 => Ok(Fault::Protected),
            12 => Ok(Fault::BadArgument),
            13 => Ok(Fault::AboveItself),
            _ => Err(NoFault(number)),
        }
    }
}
