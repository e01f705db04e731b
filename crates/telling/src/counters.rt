// 34, "counters and the running entry".
ghost use Rattle.std.specs.Prelude.{◌≡◌, ◌<◌};
ghost use Rattle.model.specs.Map as Map;
ghost use Rattle.model.specs.Store.{bytes};
ghost use Rattle.model.specs.Rule.{holds};
ghost use Rattle.model.specs.Tell.{offending, offending_in};
ghost use Rattle.model.specs.Classes as Classes;
ghost use Rattle.model.specs.Bytes as Model;
ghost use Rattle.telling.specs.Rows.{here, lowest, lowest_by};

use crate::lowest::{lowest, unless};
use crate::walks::{listed_once, processors};
use judge::tables::{is_at, lies_at, under_at};
use model::{ControlPage, Memory, map};
use words::at;

fn clock(m: &Memory) -> Option<u16>
    ensures { result ≡ lowest (offending (here (Classes.clock bytes) m.now)) }
{
    let line = lies_at(m, map::CLOCK_LINE, map::FIRST_OUTER, map::LAST_LINE);
    let c0 = under_at(m, map::C0, at(m, map::DIVIDER));
    let c1 = under_at(m, map::C1, map::C1_END);
    let c2 = under_at(m, map::C2, map::C2_END);
    let c3 = under_at(m, map::C3, map::C3_END);
    let zero = is_at(m, map::ZERO_WORD, 0);
    let divider = lies_at(m, map::DIVIDER, 1, map::A_WORD);
    lowest(&[
        unless(line, map::CLOCK_LINE),
        unless(c0, map::C0),
        unless(c1, map::C1),
        unless(c2, map::C2),
        unless(c3, map::C3),
        unless(zero, map::ZERO_WORD),
        unless(divider, map::DIVIDER),
    ])
}

// The running one, a processor's page, is ready; its label is shown.
#[tactic(auto, using(crate::proofs::Asking::runners))]
fn runner(m: &Memory, a: u16) -> bool
    requires { a < 8192 }
    ensures { result ≡ holds (here (Classes.runner bytes) m.now a) }
{
    let w = at(m, a);
    if w == 0 {
        return true;
    }
    listed_once(m, w) && ControlPage(w).word(m, map::STATE) < map::WAIT_BIT
}

#[tactic(auto, using(crate::proofs::Asking::showns))]
fn shown(m: &Memory, a: u16) -> bool
    requires { a < 8192 }
    ensures { result ≡ holds (here (Classes.shown bytes) m.now a) }
{
    let p = at(m, map::RUNNING_PAGE);
    let w = at(m, a);
    if p == 0 {
        return w == 0;
    }
    w == ControlPage(p).word(m, map::LABEL)
}

// Who is ready is not higher than the running one.
#[tactic(auto, using(crate::proofs::Asking::highers))]
fn not_higher(m: &Memory, p: ControlPage) -> bool
    ensures { result ≡ holds (here (Classes.not_higher bytes) m.now p.0) }
{
    if map::WAIT_BIT <= p.word(m, map::STATE) {
        return true;
    }
    let r = at(m, map::RUNNING_PAGE);
    r != 0 && p.word(m, map::LABEL) / map::FIELD <= ControlPage(r).word(m, map::LABEL) / map::FIELD
}

#[tactic(auto, using(crate::proofs::Chains::walk_told))]
fn none_higher(m: &Memory) -> Option<u16>
    ensures { result ≡ lowest_by (λ p. Map.running_page) (here (Classes.not_higher bytes) m.now) (Model.met m.now Map.processor_list) }
{
    processors(m)
        .filter_map(|p| unless(not_higher(m, p), map::RUNNING_PAGE))
        .min()
}

fn running(m: &Memory) -> Option<u16>
    ensures { result ≡ lowest (offending (here (Classes.running bytes) m.now)) }
{
    lowest(&[
        unless(runner(m, map::RUNNING_PAGE), map::RUNNING_PAGE),
        none_higher(m),
        unless(shown(m, map::RUNNING_LABEL), map::RUNNING_LABEL),
    ])
}

#[tactic(auto, using(crate::proofs::Lows::sentences), unfolding(model::specs::Classes::of_counters))]
pub fn counters(m: &Memory) -> Option<u16>
    ensures { result ≡ lowest (offending_in (here (Classes.of_counters bytes) m.now)) }
{
    lowest(&[clock(m), running(m)])
}
