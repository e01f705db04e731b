// Who runs, and the saved context: registers and nineteen words, taken from and put back to page 0 by value.
#![tactic(auto)]

ghost use Rattle.std.specs.Prelude.{◌≡◌, cond, ◌<◌, ◌≤◌, eqb};
ghost use Rattle.model.specs.Coded.{found};
ghost use Rattle.model.specs.Map as Map;
ghost use Rattle.model.specs.Bytes as Model;
ghost use Rattle.turn.specs.Leading.{above_leader};

use model::{Context, ControlPage, Memory, Registers, map};
use processors::{priority, ready};
use queues::{Queue, page_at};
use words::{at, write};

// The running one if it is ready.
#[tactic(auto, using(crate::proofs::Laws::stays_none, crate::proofs::Laws::stays_some))]
fn stays(m: &Memory) -> Option<ControlPage>
    ensures { result ≡ found (Model.stays m.now (Model.running m.now)) }
{
    let page = page_at(m, map::RUNNING_PAGE)?;
    ready(m, page).then_some(page)
}

// Whether its priority is above the leader's, if there is one.
fn above(m: &Memory, leader: Option<ControlPage>, page: ControlPage) -> bool
    ensures { result ≡ above_leader m.now leader page.0 }
{
    match leader {
        Some(leader) => priority(m, leader) < priority(m, page),
        None => true,
    }
}

// Who is to run: the first of the highest priority of the ready ones on the processor list, if it is above the running one.
fn chosen(m: &Memory) -> Option<ControlPage>
    ensures { result ≡ found (Model.chosen m.now) }
{
    let mut leader = stays(m);
    for page in Queue::processors().pages(m) {
        if ready(m, page) && above(m, leader, page) {
            leader = Some(page);
        }
    }
    leader
}

// Where one of the nineteen words stands on page 0.
#[tactic(auto, using(crate::proofs::Laws::zero_first, crate::proofs::Laws::zero_later))]
fn zero_place(index: u16) -> u16
    requires { index < 19 }
    ensures { (result ≡ Map.zero_place index) × (result < 8192) }
{
    if index < map::EARLY_COUNT {
        return map::EARLY_WORDS + index;
    }
    map::LATER_WORDS + index
}

// The nineteen words on page 0, and those that a page keeps.
fn on_page0(m: &Memory) -> [u8; map::KEPT_WORDS]
    ensures { result ≡ Model.on_page0 m.now }
{
    std::array::from_fn(|index| at(m, zero_place(index as u16)))
}

fn kept_on(m: &Memory, page: ControlPage) -> [u8; map::KEPT_WORDS]
    ensures { result ≡ Model.kept_on m.now page.0 }
{
    std::array::from_fn(|index| page.word(m, map::KEEPS + index as u16))
}

// The context of the processor of a page, while it runs and while another runs.
#[tactic(auto, unfolding(model::specs::Turn::context_of))]
pub fn context_of(m: &Memory, page: ControlPage) -> Context
    ensures { result ≡ Model.context_of m.now page.0 }
{
    Context {
        registers: Registers::of(m, page),
        words: on_page0(m),
    }
}

#[tactic(auto, unfolding(model::specs::Turn::saved_of))]
pub fn saved_of(m: &Memory, page: ControlPage) -> Context
    ensures { result ≡ Model.saved_of m.now page.0 }
{
    Context {
        registers: Registers::of(m, page),
        words: kept_on(m, page),
    }
}

// The words go to the page, to page 0. These stay two: a function that both share would take the place of a word as a closure, and be no plainer.
#[tactic(auto, using(crate::proofs::Laws::keeping))]
fn keep(m: &mut Memory, page: ControlPage, words: &[u8; map::KEPT_WORDS])
    ensures { m.new ≡ Model.kept Map.kept_count m.old page.0 words.now }
{
    for index in (0..map::KEPT_COUNT).rev() {
        page.store(m, map::KEEPS + index, words[usize::from(index)]);
    }
}

#[tactic(auto, using(crate::proofs::Laws::restoring))]
fn restore(m: &mut Memory, words: &[u8; map::KEPT_WORDS])
    ensures { m.new ≡ Model.restored Map.kept_count m.old words.now }
{
    for index in (0..map::KEPT_COUNT).rev() {
        write(m, zero_place(index), words[usize::from(index)]);
    }
}

// A context is taken and put back whole: page 0's words are saved to the page, are loaded from it, and its registers go back to it.
#[tactic(auto, using(crate::proofs::Laws::save_is))]
fn save(m: &mut Memory, page: ControlPage)
    ensures { m.new ≡ Model.kept Map.kept_count m.old page.0 (Model.on_page0 m.old) }
{
    let context = context_of(m, page);
    context.registers.hand_back(m, page);
    keep(m, page, &context.words);
}

#[tactic(auto, using(crate::proofs::Laws::load_is))]
fn load(m: &mut Memory, page: ControlPage)
    ensures { m.new ≡ Model.restored Map.kept_count m.old (Model.kept_on m.old page.0) }
{
    let context = saved_of(m, page);
    context.registers.hand_back(m, page);
    restore(m, &context.words);
}

// The priority and name of a page; of page 0, 0.
#[tactic(auto, using(model::proofs::Tests::tests))]
fn label(m: &Memory, page: ControlPage) -> u8
    ensures { result ≡ cond (eqb page.0 0) 0 (Model.word m.now page.0 Map.label) }
{
    if page.0 == 0 {
        0
    } else {
        page.word(m, map::LABEL)
    }
}

// The page runs; page 0: nobody. It is no Option, since the model's `runs` writes the 0.
#[tactic(auto, unfolding(model::specs::Turn::runs))]
pub fn runs(m: &mut Memory, page: ControlPage)
    ensures { m.new ≡ Model.runs m.old page.0 }
{
    let w = label(m, page);
    write(m, map::RUNNING_PAGE, page.0);
    write(m, map::RUNNING_LABEL, w);
}

// Who runs, after each call.
pub fn who_runs(m: &mut Memory)
    ensures { m.new ≡ Model.who_runs m.old }
{
    let old = page_at(m, map::RUNNING_PAGE);
    let new = chosen(m);
    if old == new {
        return;
    }
    if let Some(page) = old {
        save(m, page);
    }
    match new {
        Some(page) => {
            load(m, page);
            runs(m, page);
        }
        None => runs(m, ControlPage(0)),
    }
}
