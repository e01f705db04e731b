// Memory map: "A header holds the first page, a link the next, 0 ends." A cell is the address of a word that points to a page, a header or a
// link alike; a search goes by recursion along links, with at most twenty pages left.
#![tactic(auto)]

ghost use Rattle.std.specs.Prelude.{◌≡◌, ◌<◌, ℕ, List, eqb};
ghost use Rattle.std.specs.Iterator.{item_count};
ghost use Rattle.std.specs.Map.Iter.{TakesFirst};
ghost use Rattle.model.specs.Coded.{found};
ghost use Rattle.model.specs.Map as Map;
ghost use Rattle.model.specs.Queue.{first};
ghost use Rattle.model.specs.Bytes as Model;

use model::{ControlPage, Memory, map};
use std::marker::Model;
use words::{at, write};

// The page that the word at an address names, "0 ends".
#[tactic(auto, using(model::proofs::Tests::tests), unfolding(model::specs::Coded::found))]
pub fn page_at(m: &Memory, address: u16) -> Option<ControlPage>
    requires { address < 8192 }
    ensures { result ≡ found (Model.at m.now address) }
{
    match at(m, address) {
        0 => None,
        page => Some(ControlPage(page)),
    }
}

// The pages that hang from a cell along the links in one word, at most so many; a clause sees those that are left, by their numbers.
#[derive(Drop)]
pub struct Walk<'m> {
    m: &'m Memory,
    link: u16,
    cell: u16,
    left: u8,
}

impl<'m> Model for Walk<'m> {
    ghost Value = { List ℕ };

    ghost view = { λ w. Model.walk w.left w.m.now w.link w.cell };

    ghost invariant = { λ w. (w.link < 32) × (w.cell < 8192) };
}

impl<'m> Walk<'m> {
    pub fn new(m: &'m Memory, link: u16, cell: u16, left: u8) -> Self
        requires { (link < 32) × (cell < 8192) }
        ensures { result ≡ Model.walk left m.now link cell }
    {
        Self {
            m,
            link,
            cell,
            left,
        }
    }
}

impl<'m> Iterator for Walk<'m> {
    type Item = ControlPage;

    ghost next_gives = { TakesFirst (λ p. p.0) };

    ghost remaining = { item_count (λ w. w) };

    fn next(&mut self) -> Option<ControlPage> {
        if self.left == 0 {
            return None;
        }
        let page = page_at(self.m, self.cell)?;
        self.left -= 1;
        self.cell = page.place(self.link);
        Some(page)
    }
}

// From a cell on, along the links in one word, the first cell that holds the page, at most so many links on.
#[tactic(auto, using(crate::proofs::Laws::cells))]
fn cell_from(m: &Memory, link: u16, cell: u16, page: ControlPage, left: u8) -> u16
    requires { (link < 32) × (cell < 8192) }
    ensures { (result ≡ Model.cell_of left m.now link cell page.0) × (result < 8192) }
{
    if left == 0 {
        return cell;
    }
    let word = at(m, cell);
    if word == page.0 {
        return cell;
    }
    cell_from(m, link, ControlPage(word).place(link), page, left - 1)
}

// The page, if it hangs from the cell along the links of wait queues, at most so many on.
#[tactic(auto, using(crate::proofs::Laws::searches))]
pub fn find_page(m: &Memory, page: ControlPage, cell: u16, left: u8) -> Option<ControlPage>
    requires { cell < 8192 }
    ensures { result ≡ found (first (eqb page.0) (Model.walk left m.now Map.link cell)) }
{
    if left == 0 {
        return None;
    }
    let next = page_at(m, cell)?;
    if page == next {
        return Some(next);
    }
    find_page(m, page, next.place(map::LINK), left - 1)
}

// A queue, by the place of its header and by the word of a page that links to the next.
#[derive(Clone, Copy)]
pub struct Queue {
    pub header: u16,
    pub link: u16,
    ghost in_memory: { header < 8192 },
    ghost in_page: { link < 32 },
}

impl Queue {
    // "The processor list links through word 1, all else through word 0."
    pub fn processors() -> Self
        ensures { (result.header ≡ Map.processor_list) × (result.link ≡ Map.list_link) }
    {
        Self {
            header: map::PROCESSOR_LIST,
            link: map::LIST_LINK,
        }
    }

    pub fn at(header: u16) -> Self
        requires { header < 8192 }
        ensures { (result.header ≡ header) × (result.link ≡ Map.link) }
    {
        Self {
            header,
            link: map::LINK,
        }
    }

    // The pages that wait in it, from the first on.
    pub fn pages(self, m: &Memory) -> Walk
        ensures { result ≡ Model.walk Map.control_pages m.now self.link self.header }
    {
        Walk::new(m, self.link, self.header, map::CONTROL_PAGES)
    }

    // The first cell that holds the page, at most so many links on: the header, or the link of the page before it. Page 0: the end's.
    pub fn cell_of(self, m: &Memory, page: ControlPage, left: u8) -> u16
        ensures { (result ≡ Model.cell_of left m.now self.link self.header page.0) × (result < 8192) }
    {
        cell_from(m, self.link, self.header, page, left)
    }

    // The page joins it at its end.
    #[tactic(auto, using(crate::proofs::Laws::join_is))]
    pub fn join(self, m: &mut Memory, page: ControlPage)
        ensures { m.new ≡ Model.join m.old self.header self.link page.0 }
    {
        page.store(m, self.link, 0);
        let cell = self.cell_of(m, ControlPage(0), map::CONTROL_PAGES);
        write(m, cell, page.0);
    }

    // The page leaves it.
    #[tactic(auto, unfolding(model::specs::Queue::leave))]
    pub fn leave(self, m: &mut Memory, page: ControlPage)
        ensures { m.new ≡ Model.leave m.old self.header self.link page.0 }
    {
        let next = page.word(m, self.link);
        let cell = self.cell_of(m, page, map::CONTROL_PAGES);
        write(m, cell, next);
        page.store(m, self.link, 0);
    }
}
