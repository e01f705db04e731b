// "every control page is used once", "waiting bit set exactly if in one wait queue": the pages seen in lists.
ghost use Rattle.std.specs.Prelude.{◌≡◌, ◌==◌, ℕ, ◌<◌, ◌^◌, [], ◌∷◌};
ghost use Rattle.model.specs.Map as Map;
ghost use Rattle.model.specs.Lists.{mails, owns, range, uses, queues};
ghost use Rattle.model.specs.Bytes as Model;
ghost use Rattle.lists.specs.Seen as Pages;

use crate::{list_of, processors};
use model::{ControlPage, Memory, map, wide};
use queues::Walk;
use std::marker::Model;
use words::at;

const ALL_PAGES: u32 = 1048575;

// Control pages, as bits of one number: bit x - 236 for the page x. What adds pages gives None where one is no control page, or is there
// already; so a list that does not end gives None too.
#[derive(Clone, Copy, PartialEq)]
pub struct Seen {
    bits: u32,
}

impl Model for Seen {
    ghost Value = { ℕ };

    ghost view = { λ s. s.bits };

    ghost invariant = { λ s. s.bits < 2 ^ Map.control_pages };

    ghost inverse = { λ n. record { bits = n } };
}

impl Seen {
    pub fn none() -> Self
        ensures { result ≡ 0 }
    {
        Self { bits: 0 }
    }

    // Whether they are all control pages.
    pub fn are_all(self) -> bool
        ensures { result ≡ (self == Pages.all_pages) }
    {
        self.bits == ALL_PAGES
    }

    // With one page more.
    #[tactic(auto, using(crate::proofs::Counting::seeing))]
    pub fn see(self, page: u8) -> Option<Self>
        ensures { result ≡ Pages.see self page }
    {
        if page < map::FIRST_CONTROL {
            return None;
        }
        let place = u32::from(page - map::FIRST_CONTROL);
        if (self.bits >> place) % 2 == 0 {
            return Some(Self {
                bits: self.bits + (1 << place),
            });
        }
        None
    }

    // With the list of the head. Most are empty, and passed over.
    fn list(self, m: &Memory, head: u16) -> Option<Self>
        requires { head < 8192 }
        ensures { result ≡ Pages.see_all self (Model.lists m.now head) }
    {
        if at(m, head) == 0 {
            return Some(self);
        }
        list_of(m, head).try_fold(self, |seen, page| seen.see(page.0))
    }

    // With Q1 and Q2 of a processor, and of each; with the own queue of each.
    fn mail_of(self, m: &Memory, page: ControlPage) -> Option<Self>
        ensures { result ≡ Pages.see_lists (Model.lists m.now) self (mails (page.0 ∷ [])) }
    {
        self.list(m, page.place(map::Q1))?
            .list(m, page.place(map::Q2))
    }

    fn mail(self, m: &Memory) -> Option<Self>
        ensures { result ≡ Pages.see_lists (Model.lists m.now) self (mails (Model.lists m.now Map.processor_list)) }
    {
        processors(m).try_fold(self, |seen, p| seen.mail_of(m, p))
    }

    fn owns(self, m: &Memory) -> Option<Self>
        ensures { result ≡ Pages.see_lists (Model.lists m.now) self (owns (Model.lists m.now Map.processor_list)) }
    {
        processors(m).try_fold(self, |seen, p| seen.list(m, p.place(map::OWN_QUEUE)))
    }

    // With the words of page 10; with the queues of the interrupts.
    fn grants(self, m: &Memory) -> Option<Self>
        ensures { result ≡ Pages.see_lists (Model.lists m.now) self (range Map.page_size 1 Map.grants) }
    {
        (0..map::GRANT_WORDS).try_fold(self, |seen, k| seen.list(m, map::GRANTS + wide(k)))
    }

    fn interrupts(self, m: &Memory) -> Option<Self>
        ensures { result ≡ Pages.see_lists (Model.lists m.now) self (range Map.interrupts 2 (Map.header_after 0)) }
    {
        (0..map::INTERRUPTS).try_fold(
            self,
            |seen, k| seen.list(m, map::HEADERS_AFTER + 2 * wide(k)),
        )
    }
}

// The pages of all that is used, and of all that wait.
pub fn used_bits(m: &Memory) -> Option<Seen>
    ensures { result ≡ Pages.see_lists (Model.lists m.now) 0 (uses (Model.lists m.now Map.processor_list)) }
{
    Seen::none()
        .list(m, map::PROCESSOR_LIST)?
        .list(m, map::FREE_LIST)?
        .mail(m)?
        .grants(m)
}

pub fn wait_bits(m: &Memory) -> Option<Seen>
    ensures { result ≡ Pages.see_lists (Model.lists m.now) 0 (queues (Model.lists m.now Map.processor_list)) }
{
    Seen::none()
        .list(m, map::PAGE_QUEUE)?
        .owns(m)?
        .interrupts(m)
}

// With those of the processors from the cell on that have the waiting bit.
pub fn flag_bits(m: &Memory, seen: Seen, cell: u16, left: u8) -> Option<Seen>
    requires { cell < 8192 }
    ensures { result ≡ Pages.flags (Model.waiting m.now) seen (Model.walk left m.now Map.list_link cell) }
{
    Walk::new(m, map::LIST_LINK, cell, left)
        .filter(|p| p.word(m, map::STATE) % map::STOP_BIT / map::WAIT_BIT == 1)
        .try_fold(seen, |seen, p| seen.see(p.0))
}
