// "names differ and lie in 1-15, priorities 1-15": the names seen, as pages. The name n stands as page 236 + n does, for names differ exactly if
// those pages do.
ghost use Rattle.std.specs.Prelude.{◌≡◌};
ghost use Rattle.model.specs.Store.{bytes};
ghost use Rattle.model.specs.Rule.{holds};
ghost use Rattle.model.specs.Judge as Judge;
ghost use Rattle.lists.specs.Heads.{rule};
ghost use Rattle.lists.specs.Seen as Pages;

use crate::seen::Seen;
use crate::{lies, processors};
use model::{ControlPage, Memory, map};

// Whether the name and the priority of a label lie in 1-15.
#[tactic(auto, using(crate::proofs::Folds::parts), unfolding(crate::specs::Seen::titled_by))]
fn titled(label: u8) -> bool
    ensures { result ≡ holds (Pages.titled_by label) }
{
    lies(label % map::FIELD, 1, map::LAST_NAME) && lies(label / map::FIELD, 1, map::LAST_PRIORITY)
}

// The names seen, with the name of a processor, if its label is good.
#[tactic(auto, using(crate::proofs::Named::naming))]
fn see_name(m: &Memory, seen: Seen, page: ControlPage) -> Option<Seen>
    ensures { result ≡ Pages.with_name m.now seen page.0 }
{
    let label = page.word(m, map::LABEL);
    if titled(label) {
        return seen.see(map::FIRST_CONTROL + label % map::FIELD);
    }
    None
}

pub fn named(m: &Memory) -> bool
    ensures { result ≡ holds (rule (Judge.names bytes) m.now) }
{
    processors(m)
        .try_fold(Seen::none(), |seen, p| see_name(m, seen, p))
        .is_some()
}
