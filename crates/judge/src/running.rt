// Well-formed: who runs.
ghost use Rattle.std.specs.Prelude.{◌≡◌};
ghost use Rattle.model.specs.Map as Map;
ghost use Rattle.model.specs.Store.{bytes};
ghost use Rattle.model.specs.Rule.{holds, each};
ghost use Rattle.model.specs.Judge as Judge;
ghost use Rattle.model.specs.Bytes as Model;
ghost use Rattle.lists.specs.Heads.{rule};

use crate::tables::is_at;
use lists::{listings, processors};
use model::{ControlPage, Memory, map};
use words::at;

// "word 25 of page 7 is the running one's word 7; the running one is ready": page p.
#[tactic(auto, using(crate::proofs::WhoRuns::runs))]
fn runner(m: &Memory, p: ControlPage) -> bool
    ensures { result ≡ holds (rule (Judge.runner bytes) m.now p.0) }
{
    let n = listings(m, p.0, map::PROCESSOR_LIST, map::ONE_MORE);
    let l = at(m, map::RUNNING_LABEL);
    let w = p.word(m, map::LABEL);
    let s = p.word(m, map::STATE);
    n == 1 && l == w && s < map::WAIT_BIT
}

// "and none ready is higher": page p; each of the processors.
#[tactic(auto, using(crate::proofs::Sentences::sentences))]
fn not_higher(m: &Memory, p: ControlPage) -> bool
    ensures { result ≡ holds (rule (Judge.not_higher bytes) m.now p.0) }
{
    let s = p.word(m, map::STATE);
    if s < map::WAIT_BIT {
        let w = p.word(m, map::LABEL);
        let l = at(m, map::RUNNING_LABEL);
        return w / map::FIELD <= l / map::FIELD;
    }
    true
}

fn none_higher(m: &Memory) -> bool
    ensures { result ≡ holds (each (Model.lists m.now Map.processor_list) (rule (Judge.not_higher bytes) m.now)) }
{
    processors(m).all(|p| not_higher(m, p))
}

#[tactic(auto, using(crate::proofs::WhoRuns::runs))]
pub fn running(m: &Memory) -> bool
    ensures { result ≡ holds (rule (Judge.running bytes) m.now) }
{
    let p = at(m, map::RUNNING_PAGE);
    if p == 0 {
        return is_at(m, map::RUNNING_LABEL, 0) && none_higher(m);
    }
    runner(m, ControlPage(p)) && none_higher(m)
}
