// Pages: a page taken, "SME and CRP use the page granted to them, else the first free one", and given back.
#![tactic(auto)]

ghost use Rattle.std.specs.Prelude.{◌≡◌, ◌<◌, length};
ghost use Rattle.model.specs.Map as Map;
ghost use Rattle.model.specs.Bytes as Model;
ghost use Rattle.pages.specs.Taken.{Gives};

use model::{ControlPage, Memory, Name, map, wide};
use processors::{WaitQueue, name};
use queues::{Queue, page_at};
use words::{at, lowered, raised, write};

// The page leaves the free list.
#[tactic(auto, unfolding(model::specs::Page::take_free))]
fn take_free(m: &mut Memory, page: ControlPage)
    ensures { m.new ≡ Model.take_free m.old page.0 }
{
    let count = at(m, map::FREE_SEMAPHORE);
    write(m, map::FREE_SEMAPHORE, lowered(count));
    Queue::at(map::FREE_LIST).leave(m, page);
}

// The first free page is taken.
#[tactic(auto, using(crate::proofs::Laws::free_none, crate::proofs::Laws::free_some))]
pub fn first_free(m: &mut Memory) -> Option<ControlPage>
    ensures { Gives (Model.first_free m.old) result m.new }
{
    let page = page_at(m, map::FREE_LIST)?;
    take_free(m, page);
    Some(page)
}

// Where the grant of a name stands.
pub fn grant(name: Name) -> u16
    requires { name.0 < 16 }
    ensures { (result ≡ Map.grant_for name.0) × (result < 8192) }
{
    map::GRANTS + wide(name.0)
}

// The page that the processor of a page may use is taken: its grant, else the first free one.
#[tactic(auto, using(crate::proofs::Laws::page_free, crate::proofs::Laws::page_granted))]
pub fn take_page(m: &mut Memory, page: ControlPage) -> Option<ControlPage>
    ensures { Gives (Model.take_page m.old page.0) result m.new }
{
    let own = grant(name(m, page));
    let Some(granted) = page_at(m, own) else {
        return first_free(m);
    };
    write(m, own, 0);
    Some(granted)
}

// The page goes to the end of the free list.
#[tactic(auto, unfolding(model::specs::Page::free_page))]
fn free_page(m: &mut Memory, page: ControlPage)
    ensures { m.new ≡ Model.free_page m.old page.0 }
{
    let count = at(m, map::FREE_SEMAPHORE);
    write(m, map::FREE_SEMAPHORE, raised(count));
    Queue::at(map::FREE_LIST).join(m, page);
}

// The page becomes the grant of the waiter, which wakes.
#[tactic(auto, unfolding(model::specs::Page::grant_page))]
fn grant_page(m: &mut Memory, waiter: ControlPage, page: ControlPage)
    ensures { m.new ≡ Model.grant_page m.old waiter.0 page.0 }
{
    let own = grant(name(m, waiter));
    write(m, own, page.0);
    WaitQueue::for_page().wake(m, waiter);
}

// The page is given back: to the first waiter as its grant, else to the end of the free list.
#[tactic(auto, using(crate::proofs::Laws::back_free, crate::proofs::Laws::back_granted))]
pub fn give_back(m: &mut Memory, page: ControlPage)
    ensures { m.new ≡ Model.give_back m.old page.0 }
{
    match page_at(m, map::PAGE_QUEUE) {
        Some(waiter) => grant_page(m, waiter, page),
        None => free_page(m, page),
    }
}
