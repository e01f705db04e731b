// Walks on any memory: which control pages are met, how many, and where a walk ends.
ghost use Rattle.std.specs.Prelude.{◌≡◌, ◌<◌, ◌≤◌, ℕ, List, length, eqb};
ghost use Rattle.std.specs.Iterator.{item_count};
ghost use Rattle.std.specs.Map.Iter.{TakesFirst};
ghost use Rattle.model.specs.Map as Map;
ghost use Rattle.model.specs.Store.{bytes};
ghost use Rattle.model.specs.Lists.{count};
ghost use Rattle.model.specs.Classes as Classes;
ghost use Rattle.model.specs.Bytes as Model;
ghost use Rattle.telling.specs.Rows.{here};

use lists::{left_of, lies, link_of};
use model::{ControlPage, Memory, map};
use std::marker::Model;
use words::at;

// The control pages that are met from a cell on along the links in one word, at most so many: a word that is no number of one ends the walk.
// A clause sees the numbers of those that are left.
#[derive(Drop)]
pub struct Path<'m> {
    m: &'m Memory,
    link: u16,
    cell: u16,
    left: u8,
}

impl<'m> Model for Path<'m> {
    ghost Value = { List ℕ };

    ghost view = { λ w. Model.path w.left w.m.now w.link w.cell };

    ghost invariant = { λ w. (w.link < 32) × (w.cell < 8192) };
}

impl<'m> Iterator for Path<'m> {
    type Item = ControlPage;

    ghost next_gives = { TakesFirst (λ p. p.0) };

    ghost remaining = { item_count (λ w. w) };

    fn next(&mut self) -> Option<ControlPage> {
        if self.left == 0 {
            return None;
        }
        let word = at(self.m, self.cell);
        if !lies(word, map::FIRST_CONTROL, map::LAST_CONTROL) {
            return None;
        }
        let page = ControlPage(word);
        self.left -= 1;
        self.cell = page.place(self.link);
        Some(page)
    }
}

// The list of a head; the processors.
#[tactic(auto, using(crate::proofs::Walking::met_is))]
pub fn met(m: &Memory, head: u16) -> Path
    requires { head < 8192 }
    ensures { result ≡ Model.met m.now head }
{
    Path {
        m,
        link: link_of(head),
        cell: head,
        left: left_of(head),
    }
}

pub fn processors(m: &Memory) -> Path
    ensures { result ≡ Model.met m.now Map.processor_list }
{
    met(m, map::PROCESSOR_LIST)
}

// How many pages are in the list of a head.
pub fn length_of(m: &Memory, head: u16) -> u8
    requires { head < 8192 }
    ensures { result ≡ length (Model.met m.now head) }
{
    met(m, head).count() as u8
}

// The cell where it ends.
pub fn end(m: &Memory, head: u16) -> u16
    requires { head < 8192 }
    ensures { (result ≡ here (Classes.end bytes) m.now head) × (result < 8192) }
{
    let link = link_of(head);
    met(m, head).fold(head, |_, p| p.place(link))
}

// Whether a page stands once on the processor list.
pub fn listed_once(m: &Memory, page: u8) -> bool
    ensures { result ≡ eqb (count page (Model.met m.now Map.processor_list)) 1 }
{
    processors(m).filter(|p| p.0 == page).count() == 1
}
