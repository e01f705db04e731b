// Settings: the layout of blocks and trailers, by the names that specs/Layout.antt gives it, and an entry and a trailer read from their bytes.
ghost use Rattle.std.specs.Prelude.{◌≡◌};
ghost use Rattle.model.specs.Layout as Layout;

use crate::{Entry, Trailer};

// "a version from 1 to 3"; the versions from which on there is a site number, and a label; "the reader's own".
pub const FIRST_VERSION: u8 = 1;

pub const SITED: u8 = 2;

pub const LABELLED: u8 = 3;

pub const OWN_VERSION: u8 = 3;

// "up to 14 further processors"; an entry's bytes; "a four-byte trailer".
pub const MOST_ENTRIES: u8 = 14;

pub const ENTRY_BYTES: usize = 5;

pub const TRAILER_BYTES: usize = 4;

// The places in a block, and how long the head of each version is.
pub const VERSION: usize = 0;

pub const COUNT: usize = 1;

pub const LINE: usize = 2;

pub const DIVIDER: usize = 3;

pub const SITE: usize = 4;

pub const LABEL: usize = 5;

pub const LABEL_BYTES: usize = 12;

pub const FIRST_HEAD: usize = 4;

pub const SITED_HEAD: usize = 5;

pub const LABELLED_HEAD: usize = 17;

// "(name, priority, W, address)", an address "high byte first".
impl From<[u8; ENTRY_BYTES]> for Entry {
    ghost from_gives = { λ b e. e ≡ Layout.entry_at b 0 };

    #[tactic(auto, unfolding(crate::specs::Layout::entry_at))]
    fn from(bytes: [u8; ENTRY_BYTES]) -> Entry {
        let [name, priority, w, high, low] = bytes;
        Entry {
            name,
            priority,
            w,
            address: u16::from_be_bytes([high, low]),
        }
    }
}

// "two bytes give the distance to the start of the newest block, one its version, one its length in entries".
impl From<[u8; TRAILER_BYTES]> for Trailer {
    ghost from_gives = { λ b t. t ≡ Layout.trailer_in b };

    #[tactic(auto, unfolding(crate::specs::Layout::trailer_in))]
    fn from(bytes: [u8; TRAILER_BYTES]) -> Trailer {
        let [high, low, version, count] = bytes;
        Trailer {
            distance: u16::from_be_bytes([high, low]),
            version,
            count,
        }
    }
}
