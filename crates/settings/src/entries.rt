// The entries of a block: "(name, priority, W, address)", one behind the other.
ghost use Rattle.std.specs.Prelude.{◌≡◌, ◌≤◌, ◌+◌, ◌*◌, length, if◌then◌else◌, ltb, Some, None};
ghost use Rattle.model.specs.Layout as Layout;

use crate::block::head_bytes;
use model::{Entry, layout, map};
use std::marker::Model;

// The entries that lie in some bytes; a clause sees those that are left.
#[derive(Drop)]
pub struct Entries<'b> {
    bytes: &'b [u8],
}

impl<'b> Model for Entries<'b> {
    ghost use Rattle.std.specs.Prelude.{List};
    ghost use Rattle.model.specs.declared.Entry.{Entry};
    ghost use Rattle.settings.specs.Entries.{entries_in};

    ghost Value = { List Entry };

    ghost view = { λ e. entries_in e.bytes.now };
}

impl<'b> Entries<'b> {
    // So many entries of a block from a place on.
    #[tactic(auto, using(crate::proofs::Laws::entries_part))]
    pub fn new(block: &'b [u8], at: usize, count: u8) -> Self
        requires { at + count * 5 ≤ length block.now }
        ensures { result ≡ Layout.entries_from count block.now at }
    {
        let end = at + usize::from(count) * layout::ENTRY_BYTES;
        Self {
            bytes: &block[at..end],
        }
    }

    // The entries of a block that is as long as its version and count say.
    #[tactic(auto, using(laws::specs::Fits::head_range))]
    pub fn of(block: &'b [u8]) -> Self
        requires { Layout.block_bytes (Layout.version_of block.now) (Layout.count_of block.now) ≤ length block.now }
        ensures { result ≡ Layout.entries_of block.now }
    {
        Self::new(
            block,
            head_bytes(block[layout::VERSION]),
            block[layout::COUNT],
        )
    }

    // Those that are left, once more.
    fn left(&self) -> Entries<'_>
        ensures { result ≡ self.now }
    {
        Entries { bytes: self.bytes }
    }
}

impl<'b> Iterator for Entries<'b> {
    type Item = Entry;

    ghost use Rattle.std.specs.Iterator.{item_count};
    ghost use Rattle.std.specs.Map.Iter.{TakesFirst};

    ghost next_gives = { TakesFirst (λ e. e) };

    ghost remaining = { item_count (λ l. l) };

    fn next(&mut self) -> Option<Entry> {
        let (entry, rest) = self.bytes.split_first_chunk()?;
        self.bytes = rest;
        Some(Entry::from(*entry))
    }
}

// The entry that begins at a place, if the block has an entry's bytes there.
#[tactic(auto, using(crate::proofs::Laws::entry_there, crate::proofs::Laws::entry_not))]
pub fn entry_at(block: &[u8], at: usize) -> Option<Entry>
    ensures { result ≡ (if ltb (length block.now) (at + 5) then None else Some (Layout.entry_at block.now at)) }
{
    let entry = block.get(at..)?.first_chunk()?;
    Some(Entry::from(*entry))
}

// Whether priority, W and address of an entry are in range.
#[tactic(auto, unfolding(model::specs::Layout::is_ranged))]
fn is_ranged(e: Entry) -> bool
    ensures { result ≡ Layout.is_ranged e }
{
    (1..=map::LAST_PRIORITY).contains(&e.priority)
        && e.w <= map::FOUR_BITS
        && e.address <= map::LAST_ADDRESS
}

// Whether every field of an entry is in range; the name 1 is not.
#[tactic(auto, unfolding(model::specs::Layout::is_entry))]
pub fn is_entry(e: Entry) -> bool
    ensures { result ≡ Layout.is_entry e }
{
    map::FIRST_NAME < e.name && e.name <= map::LAST_NAME && is_ranged(e)
}

// Whether all entries are in range.
pub fn are_entries(mut entries: Entries<'_>) -> bool
    ensures { result ≡ Layout.are_entries entries.entry }
{
    entries.all(is_entry)
}

// Whether one of the entries has the name.
pub fn bears(mut entries: Entries<'_>, name: u8) -> bool
    ensures { result ≡ Layout.bears name entries.entry }
{
    entries.any(|e| e.name == name)
}

// Whether no two of the entries have one name.
#[tactic(auto, unfolding(model::specs::Layout::names_differ))]
pub fn names_differ(mut entries: Entries<'_>) -> bool
    ensures { result ≡ Layout.names_differ entries.entry }
{
    while let Some(e) = entries.next() {
        if bears(entries.left(), e.name) {
            return false;
        }
    }
    true
}
