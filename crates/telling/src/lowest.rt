// The lowest address that is told: of a rule that is broken, and of the end of a list.
ghost use Rattle.std.specs.Prelude.{◌≡◌, [], ◌∷◌, ◌<◌, cond, Some, None, flat_map, option_to_list};
ghost use Rattle.model.specs.Store.{bytes};
ghost use Rattle.model.specs.Rule.{holds};
ghost use Rattle.model.specs.Classes as Classes;
ghost use Rattle.telling.specs.Rows.{here, lowest, lowest_end};

use crate::walks::end;
use lists::lies;
use model::{Memory, map};
use words::at;

// The address that is told, unless the rule holds.
pub fn unless(holds: bool, told: u16) -> Option<u16>
    ensures { result ≡ cond holds None (Some told) }
{
    (!holds).then_some(told)
}

// The lowest of what is told.
pub fn lowest(told: &[Option<u16>]) -> Option<u16>
    ensures { result ≡ lowest (flat_map option_to_list told.now) }
{
    told.iter().copied().flatten().min()
}

// 0 or a control page.
#[tactic(auto, using(crate::proofs::Asking::pointer_none, crate::proofs::Asking::pointer_some))]
pub fn pointer(m: &Memory, a: u16) -> bool
    requires { a < 8192 }
    ensures { result ≡ holds (here (Classes.pointer bytes) m.now a) }
{
    let w = at(m, a);
    w == 0 || lies(w, map::FIRST_CONTROL, map::LAST_CONTROL)
}

// By what a cell is told: one on a control page by that page.
#[tactic(auto, using(crate::proofs::Asking::cell_low, crate::proofs::Asking::cell_high))]
fn told_by(a: u16) -> u16
    ensures { result ≡ Classes.cell a }
{
    if a < map::CONTROL_PAGE {
        return a;
    }
    a / map::PAGE_SIZE * map::PAGE_SIZE
}

// The end of the list of a head.
#[tactic(auto, using(crate::proofs::Lows::one_told, crate::proofs::Asking::ends_is, crate::proofs::Asking::false_end_is))]
pub fn list_end(m: &Memory, head: u16) -> Option<u16>
    requires { head < 8192 }
    ensures { result ≡ lowest_end m.now (head ∷ []) }
{
    let cell = end(m, head);
    unless(pointer(m, cell), told_by(cell))
}
