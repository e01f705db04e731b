// 32, "a processor or message record".
ghost use Rattle.std.specs.Prelude.{◌≡◌, ◌∷◌, ◌++◌, ◌<◌};
ghost use Rattle.model.specs.Map as Map;
ghost use Rattle.model.specs.Store.{bytes};
ghost use Rattle.model.specs.Rule.{holds};
ghost use Rattle.model.specs.Lists.{range, mails};
ghost use Rattle.model.specs.Walks.{gather};
ghost use Rattle.model.specs.Tell.{offending, offending_in};
ghost use Rattle.model.specs.Judge as Judge;
ghost use Rattle.model.specs.Classes as Classes;
ghost use Rattle.model.specs.Bytes as Model;
ghost use Rattle.telling.specs.Rows.{here, lowest, lowest_by, ranked};
ghost use Rattle.telling.specs.Met as Met;

use crate::lowest::{lowest, unless};
use crate::met::{Marks, name_marks, title};
use crate::places::grant_for;
use crate::walks::{met, processors};
use judge::records::{message, zero_bits};
use judge::tables::is_at;
use lists::lies;
use model::{ControlPage, Memory, map};
use words::at;

// Name and priority are 1-15.
#[tactic(auto, using(crate::proofs::Asking::ranks))]
fn ranked(w: u8) -> bool
    ensures { result ≡ holds (ranked w) }
{
    lies(w % map::FIELD, 1, map::LAST_NAME) && lies(w / map::FIELD, 1, map::LAST_PRIORITY)
}

// Its name is its own, by the marks of the names.
#[tactic(auto, using(crate::proofs::Meeting::labels))]
fn label(m: &Memory, names: Marks, p: ControlPage) -> bool
    requires { names ≡ Met.name_marks m.now }
    ensures { result ≡ holds (here (Judge.label bytes) m.now p.0) }
{
    let w = p.word(m, map::LABEL);
    names.times(title(w % map::FIELD)) == 1 && ranked(w)
}

#[tactic(auto, using(crate::proofs::Chains::walk_told))]
fn all_labels(m: &Memory, names: Marks) -> Option<u16>
    requires { names ≡ Met.name_marks m.now }
    ensures { result ≡ lowest_by Classes.page (here (Judge.label bytes) m.now) (Model.met m.now Map.processor_list) }
{
    processors(m)
        .filter_map(|p| unless(label(m, names, p), p.place(map::LINK)))
        .min()
}

#[tactic(auto, using(crate::proofs::Chains::walk_told))]
fn all_zero_bits(m: &Memory) -> Option<u16>
    ensures { result ≡ lowest_by Classes.page (Judge.zero_bits bytes m.now) (Model.met m.now Map.processor_list) }
{
    processors(m)
        .filter_map(|p| unless(zero_bits(m, p), p.place(map::LINK)))
        .min()
}

#[tactic(auto, using(crate::proofs::Lows::rows), unfolding(model::specs::Classes::labels))]
fn labels(m: &Memory, names: Marks) -> Option<u16>
    requires { names ≡ Met.name_marks m.now }
    ensures { result ≡ lowest (offending (here (Classes.labels bytes) m.now)) }
{
    lowest(&[all_labels(m, names), all_zero_bits(m)])
}

// A grant is that of a name.
#[tactic(auto, using(crate::proofs::Meeting::existing))]
fn existing(m: &Memory, names: Marks, name: u8) -> bool
    requires { (name < 16) × (names ≡ Met.name_marks m.now) }
    ensures { result ≡ holds (here (Classes.existing bytes) m.now name) }
{
    at(m, grant_for(name)) == 0 || 1 <= names.times(title(name))
}

fn all_existing(m: &Memory, names: Marks) -> Option<u16>
    requires { names ≡ Met.name_marks m.now }
    ensures { result ≡ lowest_by Map.grant_for (here (Classes.existing bytes) m.now) (range Map.last_name 1 1) }
{
    (1..map::FIELD)
        .filter_map(|name| unless(existing(m, names, name), grant_for(name)))
        .min()
}

// The other words of page 10 are 0: from name 16 on, and that of name 0 besides.
fn rest_nought(m: &Memory) -> Option<u16>
    ensures { result ≡ lowest_by Classes.itself (here (Classes.nought bytes) m.now) (range 16 1 (Map.grant_for 16)) }
{
    (map::FIELD..map::GRANT_WORDS)
        .filter_map(|name| unless(is_at(m, grant_for(name), 0), grant_for(name)))
        .min()
}

#[tactic(auto, using(crate::proofs::Lows::heads, crate::proofs::Lows::one_told), unfolding(model::specs::Classes::nought))]
fn all_nought(m: &Memory) -> Option<u16>
    ensures { result ≡ lowest_by Classes.itself (here (Classes.nought bytes) m.now) (Map.grants ∷ range 16 1 (Map.grant_for 16)) }
{
    lowest(&[
        unless(is_at(m, map::GRANTS, 0), map::GRANTS),
        rest_nought(m),
    ])
}

#[tactic(auto, using(crate::proofs::Lows::rows), unfolding(model::specs::Classes::granted))]
fn granted(m: &Memory, names: Marks) -> Option<u16>
    requires { names ≡ Met.name_marks m.now }
    ensures { result ≡ lowest (offending (here (Classes.granted bytes) m.now)) }
{
    lowest(&[all_existing(m, names), all_nought(m)])
}

// The messages in the queue of a head; in the mail of a processor; of all of them.
#[tactic(auto, using(crate::proofs::Chains::walk_told))]
fn queued(m: &Memory, head: u16) -> Option<u16>
    requires { head < 8192 }
    ensures { result ≡ lowest_by Classes.page (Judge.message bytes m.now) (Model.met m.now head) }
{
    met(m, head)
        .filter_map(|p| unless(message(m, p), p.place(map::LINK)))
        .min()
}

#[tactic(auto, using(crate::proofs::Lows::heads))]
fn mailed(m: &Memory, p: ControlPage) -> Option<u16>
    ensures { result ≡ lowest_by Classes.page (Judge.message bytes m.now)
        (Model.met m.now (Map.place p.0 Map.q1) ++ Model.met m.now (Map.place p.0 Map.q2)) }
{
    lowest(&[queued(m, p.place(map::Q1)), queued(m, p.place(map::Q2))])
}

#[tactic(auto, using(crate::proofs::Chains::letters_told, crate::proofs::Lows::row_only), unfolding(model::specs::Classes::messages))]
fn messages(m: &Memory) -> Option<u16>
    ensures { result ≡ lowest (offending (here (Classes.messages bytes) m.now)) }
{
    processors(m).filter_map(|p| mailed(m, p)).min()
}

#[tactic(auto, using(crate::proofs::Lows::sentences), unfolding(model::specs::Classes::of_records))]
pub fn records(m: &Memory) -> Option<u16>
    ensures { result ≡ lowest (offending_in (here (Classes.of_records bytes) m.now)) }
{
    let names = name_marks(m);
    lowest(&[labels(m, names), granted(m, names), messages(m)])
}
