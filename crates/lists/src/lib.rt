// The lists of the judge: which pages a head has, how long a list is, how often a page or a name stands in the processor list; which pages lists
// hold (seen), and whether names differ (names).
#![tactic(auto)]

pub mod names;
pub mod seen;

ghost use Rattle.std.specs.Prelude.{◌≡◌, ◌&&◌, ◌<◌, ◌≤◌, length};
ghost use Rattle.model.specs.Map as Map;
ghost use Rattle.model.specs.Rule.{holds, among};
ghost use Rattle.model.specs.Lists.{count, each_of, link_of, reach};
ghost use Rattle.model.specs.Bytes as Model;

use model::{Memory, map, wide};
use queues::Walk;
use words::at;

// Whether both hold; `telling` asks both, whatever the first says.
pub fn both(a: bool, b: bool) -> bool
    ensures { result ≡ (a && b) }
{
    a && b
}

// Whether the value lies in low-high.
#[tactic(auto, using(crate::proofs::Folds::lies_is))]
pub fn lies(value: u8, low: u8, high: u8) -> bool
    ensures { result ≡ holds (among value low high) }
{
    low <= value && value <= high
}

// a - b as a signed byte.
pub fn less(a: u8, b: u8) -> u8
    ensures { result ≡ Map.less a b }
{
    ((map::WORD_VALUES + wide(a) - wide(b)) % map::WORD_VALUES) as u8
}

// The word that links the list of the head.
#[tactic(auto, using(crate::proofs::Folds::folds))]
pub fn link_of(head: u16) -> u16
    ensures { (result ≡ link_of head) × (result < 32) }
{
    if head == map::PROCESSOR_LIST {
        return map::LIST_LINK;
    }
    map::LINK
}

// How far it goes: one page more than there are, and one page for a grant.
#[tactic(auto, using(crate::proofs::Folds::folds))]
pub fn left_of(head: u16) -> u8
    ensures { result ≡ reach head }
{
    if head < map::GRANTS {
        return map::ONE_MORE;
    }
    if head < map::GRANTS_END {
        return 1;
    }
    map::ONE_MORE
}

// The list of the head; the processors, in the order of their list.
#[tactic(auto, using(crate::proofs::Folds::folds))]
pub fn list_of(m: &Memory, head: u16) -> Walk<'_>
    requires { head < 8192 }
    ensures { result ≡ Model.lists m.now head }
{
    Walk::new(m, link_of(head), head, left_of(head))
}

pub fn processors(m: &Memory) -> Walk<'_>
    ensures { result ≡ Model.lists m.now Map.processor_list }
{
    list_of(m, map::PROCESSOR_LIST)
}

// How long the list of the head is.
pub fn length_of(m: &Memory, head: u16) -> u8
    requires { head < 8192 }
    ensures { result ≡ length (Model.lists m.now head) }
{
    if at(m, head) == 0 {
        return 0;
    }
    list_of(m, head).count() as u8
}

// How often the page stands in the processor list, from the cell on.
pub fn listings(m: &Memory, page: u8, cell: u16, left: u8) -> u8
    requires { cell < 8192 }
    ensures { (result ≡ count page (Model.walk left m.now Map.list_link cell)) × (result ≤ left) }
{
    Walk::new(m, map::LIST_LINK, cell, left)
        .filter(|p| page == p.0)
        .count() as u8
}

// How many of the processor list, from the cell on, have the name.
pub fn bearers(m: &Memory, name: u8, cell: u16, left: u8) -> u8
    requires { cell < 8192 }
    ensures { (result ≡ count name (each_of (Model.name m.now) (Model.walk left m.now Map.list_link cell))) × (result ≤ left) }
{
    Walk::new(m, map::LIST_LINK, cell, left)
        .filter(|p| name == p.word(m, map::LABEL) % map::FIELD)
        .count() as u8
}
