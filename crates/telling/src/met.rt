// How often each control page is met: two bits of one number for each of the twenty, 0, 1, or 2 for twice and oftener. A name has the bits of
// the control page that is as far behind the first.
ghost use Rattle.std.specs.Prelude.{◌≡◌, ◌<◌, ◌-◌, ◌*◌, ◌^◌, ℕ};
ghost use Rattle.model.specs.Map as Map;
ghost use Rattle.model.specs.Bytes as Model;
ghost use Rattle.telling.specs.Met as Met;
ghost use Rattle.telling.specs.Met.{marked_all};

use crate::places::{grant_for, header_after};
use crate::walks::{Path, met, processors};
use lists::lies;
use model::{ControlPage, Memory, map};
use std::marker::Model;
use words::at;

// Below what marks of twenty pages can be; a clause sees the number.
#[derive(Clone, Copy)]
pub struct Marks(u64);

impl Model for Marks {
    ghost Value = { ℕ };

    ghost view = { λ t. t.0 };

    ghost invariant = { λ t. t.0 < Met.most };

    ghost inverse = { λ n. record { 0 = n } };
}

// What a page's mark weighs.
#[tactic(auto, using(crate::proofs::Meeting::unit_is))]
fn unit(page: ControlPage) -> u64
    ensures { (result ≡ 2 ^ (2 * (page.0 - Map.first_control))) × (0 < result) × (result < Met.most) }
{
    let behind = page.0.saturating_sub(map::FIRST_CONTROL);
    1u64 << ((2 * behind) as u64)
}

impl Marks {
    // No page is met yet.
    fn none() -> Self
        ensures { result ≡ 0 }
    {
        Self(0)
    }

    // How often a page is met.
    #[tactic(auto, using(crate::proofs::Meeting::seen_here, crate::proofs::Meeting::seen_low))]
    pub fn times(self, page: ControlPage) -> u64
        ensures { result ≡ Met.seen self page.0 }
    {
        if page.0 < map::FIRST_CONTROL {
            return 0;
        }
        self.0 / unit(page) % 4
    }

    // A page is met once more; so are the pages of a list.
    #[tactic(auto, using(crate::proofs::Meeting::mark_new, crate::proofs::Meeting::mark_full, crate::proofs::Meeting::mark_below))]
    fn with(self, page: ControlPage) -> Self
        ensures { result ≡ Met.marked self page.0 }
    {
        let u = unit(page);
        if self.0 / u % 4 < 2 {
            return Self(self.0 + u);
        }
        self
    }

    fn with_all(self, pages: Path) -> Self
        ensures { result ≡ marked_all self pages.entry }
    {
        pages.fold(self, |marks, p| marks.with(p))
    }

    // So are those of the list of a head. Most hold no page, and are passed over.
    fn with_list(self, m: &Memory, head: u16) -> Self
        requires { head < 8192 }
        ensures { result ≡ marked_all self (Model.met m.now head) }
    {
        if !lies(at(m, head), map::FIRST_CONTROL, map::LAST_CONTROL) {
            return self;
        }
        self.with_all(met(m, head))
    }
}

// Of all that is used, of all that wait, of the processors.
pub fn used_marks(m: &Memory) -> Marks
    ensures { result ≡ Met.used_marks m.now }
{
    let listed = list_marks(m).with_list(m, map::FREE_LIST);
    let mailed = processors(m).fold(listed, |marks, p| {
        marks
            .with_list(m, p.place(map::Q1))
            .with_list(m, p.place(map::Q2))
    });
    (1..map::FIELD).fold(mailed, |marks, name| marks.with_list(m, grant_for(name)))
}

pub fn wait_marks(m: &Memory) -> Marks
    ensures { result ≡ Met.wait_marks m.now }
{
    let paged = Marks::none().with_list(m, map::PAGE_QUEUE);
    let owned = processors(m).fold(
        paged,
        |marks, p| marks.with_list(m, p.place(map::OWN_QUEUE)),
    );
    (0..map::INTERRUPTS).fold(owned, |marks, k| marks.with_list(m, header_after(k)))
}

#[tactic(auto, unfolding(crate::specs::Met::list_marks))]
pub fn list_marks(m: &Memory) -> Marks
    ensures { result ≡ Met.list_marks m.now }
{
    Marks::none().with_all(processors(m))
}

// The page whose mark a name has; the marks of the processors' names.
#[tactic(auto, unfolding(crate::specs::Met::title))]
pub fn title(name: u8) -> ControlPage
    requires { name < 16 }
    ensures { result.0 ≡ Met.title name }
{
    ControlPage(map::FIRST_CONTROL + name)
}

pub fn name_marks(m: &Memory) -> Marks
    ensures { result ≡ Met.name_marks m.now }
{
    processors(m).fold(
        Marks::none(),
        |marks, p| marks.with(title(p.word(m, map::LABEL) % map::FIELD)),
    )
}
