// 30, "a control page used twice or not at all".
ghost use Rattle.std.specs.Prelude.{◌≡◌, [], ◌∷◌};
ghost use Rattle.model.specs.Map as Map;
ghost use Rattle.model.specs.Store.{bytes};
ghost use Rattle.model.specs.Lists.{mails};
ghost use Rattle.model.specs.Tell.{offending, offending_in};
ghost use Rattle.model.specs.Classes as Classes;
ghost use Rattle.model.specs.Bytes as Model;
ghost use Rattle.telling.specs.Rows.{here, lowest, lowest_by, lowest_end};

use crate::lowest::{list_end, lowest, pointer, unless};
use crate::met::used_marks;
use crate::places::{control, grant_for};
use crate::walks::processors;
use model::{ControlPage, Memory, map};

// Each page is used once, by the marks of all that is used.
fn used_once(m: &Memory) -> Option<u16>
    ensures { result ≡ lowest (offending (here (Classes.used_once bytes) m.now)) }
{
    let used = used_marks(m);
    (0..map::CONTROL_PAGES)
        .filter_map(|k| unless(used.times(control(k)) == 1, control(k).place(map::LINK)))
        .min()
}

// The ends of the mail of a processor, and of all of them.
#[tactic(auto, using(crate::proofs::Lows::heads))]
fn mail_end(m: &Memory, p: ControlPage) -> Option<u16>
    ensures { result ≡ lowest_end m.now (Map.place p.0 Map.q1 ∷ Map.place p.0 Map.q2 ∷ []) }
{
    lowest(&[list_end(m, p.place(map::Q1)), list_end(m, p.place(map::Q2))])
}

#[tactic(auto, using(crate::proofs::Chains::mails_told))]
fn mails_end(m: &Memory) -> Option<u16>
    ensures { result ≡ lowest_end m.now (mails (Model.met m.now Map.processor_list)) }
{
    processors(m).filter_map(|p| mail_end(m, p)).min()
}

#[tactic(auto, using(crate::proofs::Lows::heads))]
fn chains_end(m: &Memory) -> Option<u16>
    ensures { result ≡ lowest_end m.now (Classes.chains (Model.met m.now Map.processor_list)) }
{
    lowest(&[
        list_end(m, map::PROCESSOR_LIST),
        list_end(m, map::FREE_LIST),
        mails_end(m),
    ])
}

// A grant is 0 or a control page.
fn grants_point(m: &Memory) -> Option<u16>
    ensures { result ≡ lowest_by Classes.itself (here (Classes.pointer bytes) m.now) Classes.holders }
{
    (1..map::FIELD)
        .filter_map(|name| unless(pointer(m, grant_for(name)), grant_for(name)))
        .min()
}

#[tactic(auto, using(crate::proofs::Lows::rows), unfolding(model::specs::Classes::uses_end))]
fn uses_end(m: &Memory) -> Option<u16>
    ensures { result ≡ lowest (offending (here (Classes.uses_end bytes) m.now)) }
{
    lowest(&[chains_end(m), grants_point(m)])
}

#[tactic(auto, using(crate::proofs::Lows::sentences), unfolding(model::specs::Classes::of_pages))]
pub fn pages(m: &Memory) -> Option<u16>
    ensures { result ≡ lowest (offending_in (here (Classes.of_pages bytes) m.now)) }
{
    lowest(&[used_once(m), uses_end(m)])
}
