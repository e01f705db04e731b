// Refusals: "20 length not 8,192; .. 22 idle; 23 word at LR not 224; 24 interrupt not 16-50; 25 class number over 31, or nonzero below 48; 26 fresh or register
// value out of range"; "A longer or odd list is refused by 27"; "a version above the reader's own is refused by 29 with that version, any other break of layout
// .. by 28", "by 35 if the lent buffer is too short".
ghost use Rattle.std.specs.Prelude.{◌≡◌, ◌<◌};
ghost use Rattle.model.specs.declared.refusal.Refusal.TheVariants as Refusal;
ghost use Rattle.model.specs.Coded.{class_number, refusal_number, refusal_place};

// "30 a control page used twice or not at all, 31 a wait queue or semaphore, 32 a processor or message record, 33 the code or error table, 34 counters and the
// running entry".
#[derive(Clone, Copy, PartialEq, Eq)]
pub enum Class {
    Pages = 30,
    Waits = 31,
    Records = 32,
    Tables = 33,
    Counters = 34,
}

// What is broken of a memory: its class, and the lowest address that it tells.
#[derive(Clone, Copy, PartialEq, Eq)]
pub struct Broken {
    pub class: Class,
    pub address: u16,
}

// Of a burst, 24 and 25 tell the place of the bad pair; 29 tells the version.
#[derive(Clone, Copy, PartialEq, Eq)]
pub enum Refusal {
    WrongLength,
    Idle,
    NoInstruction,
    NoInterrupt,
    NoInterruptAt(u16),
    WrongClass,
    WrongClassAt(u16),
    OutOfRange,
    WrongList,
    BrokenLayout,
    TooNew(u8),
    Broken(Broken),
    NoRoom,
}

impl From<Class> for u8 {
    ghost from_gives = { λ c n. n ≡ class_number c };

    fn from(class: Class) -> u8 {
        class as u8
    }
}

impl From<Broken> for Refusal {
    ghost from_gives = { λ b e. e ≡ Refusal.Broken b };

    fn from(broken: Broken) -> Self {
        Self::Broken(broken)
    }
}

impl From<Refusal> for u8 {
    ghost from_gives = { λ e n. n ≡ refusal_number e };

    #[tactic(auto, unfolding(crate::specs::Coded::refusal, crate::specs::Coded::refusal_number))]
    fn from(refusal: Refusal) -> u8 {
        match refusal {
            Refusal::WrongLength => 20,
            Refusal::Idle => 22,
            Refusal::NoInstruction => 23,
            Refusal::NoInterrupt | Refusal::NoInterruptAt(_) => 24,
            Refusal::WrongClass | Refusal::WrongClassAt(_) => 25,
            Refusal::OutOfRange => 26,
            Refusal::WrongList => 27,
            Refusal::BrokenLayout => 28,
            Refusal::TooNew(_) => 29,
            Refusal::Broken(broken) => u8::from(broken.class),
            Refusal::NoRoom => 35,
        }
    }
}

impl Refusal {
    // What is told beside the number: a place, a version or an address.
    #[tactic(auto, unfolding(crate::specs::Coded::refusal, crate::specs::Coded::refusal_place))]
    pub fn place(self) -> Option<u16>
        ensures { result ≡ refusal_place self }
    {
        match self {
            Refusal::NoInterruptAt(place) | Refusal::WrongClassAt(place) => Some(place),
            Refusal::TooNew(version) => Some(u16::from(version)),
            Refusal::Broken(broken) => Some(broken.address),
            _ => None,
        }
    }
}
