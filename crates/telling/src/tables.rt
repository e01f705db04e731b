// 33, "the code or error table".
ghost use Rattle.std.specs.Prelude.{◌≡◌};
ghost use Rattle.model.specs.Map as Map;
ghost use Rattle.model.specs.Store.{bytes};
ghost use Rattle.model.specs.Lists.{range};
ghost use Rattle.model.specs.Tell.{offending, offending_in};
ghost use Rattle.model.specs.Judge as Judge;
ghost use Rattle.model.specs.Classes as Classes;
ghost use Rattle.telling.specs.Rows.{here, lowest, lowest_by};

use crate::lowest::{lowest, unless};
use crate::places::{code_word, entry_after};
use judge::tables::{built_in, entry, foreign, kind, lies_at};
use model::{Memory, map};

fn kinds(m: &Memory) -> Option<u16>
    ensures { result ≡ lowest_by Map.code_word (Judge.kind bytes m.now) (range Map.all_codes 1 0) }
{
    (0..map::ALL_CODES)
        .filter_map(|c| unless(kind(m, c), code_word(c)))
        .min()
}

// Codes 0 and 1 are built in, code 15 is not.
#[tactic(auto, using(crate::proofs::Lows::heads, crate::proofs::Lows::one_told), unfolding(model::specs::Classes::is_built_in, model::specs::Lists::range))]
fn both_built_in(m: &Memory) -> Option<u16>
    ensures { result ≡ lowest_by Map.code_word (here (Classes.is_built_in bytes) m.now) (range 2 1 0) }
{
    lowest(&[
        unless(built_in(m, 0), code_word(0)),
        unless(built_in(m, 1), code_word(1)),
    ])
}

#[tactic(auto, using(crate::proofs::Lows::one_told), unfolding(model::specs::Classes::is_foreign, model::specs::Lists::range))]
fn last_foreign(m: &Memory) -> Option<u16>
    ensures { result ≡ lowest_by Map.code_word (here (Classes.is_foreign bytes) m.now) (range 1 1 Map.built_in_codes) }
{
    unless(
        foreign(m, map::BUILT_IN_CODES),
        code_word(map::BUILT_IN_CODES),
    )
}

#[tactic(auto, using(crate::proofs::Lows::rows), unfolding(model::specs::Classes::codes))]
fn codes(m: &Memory) -> Option<u16>
    ensures { result ≡ lowest (offending (here (Classes.codes bytes) m.now)) }
{
    lowest(&[kinds(m), both_built_in(m), last_foreign(m)])
}

fn all_entries(m: &Memory) -> Option<u16>
    ensures { result ≡ lowest_by Map.entry_after (Judge.entry bytes m.now) (range Map.entries 1 0) }
{
    (0..map::ENTRIES)
        .filter_map(|i| unless(entry(m, i), entry_after(i)))
        .min()
}

#[tactic(auto, using(crate::proofs::Lows::rows), unfolding(model::specs::Classes::faults, model::specs::Classes::in_range))]
fn faults(m: &Memory) -> Option<u16>
    ensures { result ≡ lowest (offending (here (Classes.faults bytes) m.now)) }
{
    let first = lies_at(m, map::FIRST_UNUSED, 1, map::ENTRIES_FULL);
    lowest(&[unless(first, map::FIRST_UNUSED), all_entries(m)])
}

#[tactic(auto, using(crate::proofs::Lows::sentences), unfolding(model::specs::Classes::of_tables))]
pub fn tables(m: &Memory) -> Option<u16>
    ensures { result ≡ lowest (offending_in (here (Classes.of_tables bytes) m.now)) }
{
    lowest(&[codes(m), faults(m)])
}
