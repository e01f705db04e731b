// Fresh start: "Fresh takes clock line and divider, clears .., then: ..".
#![tactic(auto)]

ghost use Rattle.std.specs.Prelude.{◌≡◌};
ghost use Rattle.model.specs.Map as Map;
ghost use Rattle.model.specs.Fresh as Fresh;
ghost use Rattle.model.specs.Bytes as Model;

use model::{ControlPage, Memory, Registers, instructions, map, wide};
use turn::runs;
use words::{write, zero};

// Whether clock line and divider are in range.
#[tactic(auto, using(model::proofs::Tests::tests), unfolding(model::specs::Fresh::startable))]
pub fn startable(line: u16, divider: u16) -> bool
    ensures { result ≡ Fresh.startable line divider }
{
    (map::FIRST_OUTER_WIDE..=map::LAST_LINE_WIDE).contains(&line)
        && (1..=map::A_WORD_WIDE).contains(&divider)
}

// Page 0, pages 4-10 and 236-255 are cleared.
#[tactic(auto, using(crate::proofs::Laws::cleared_is))]
fn clear_pages(m: &mut Memory)
    ensures { m.new ≡ Model.cleared m.old }
{
    zero(m, map::PAGE_ZERO, map::PAGE_SIZE);
    zero(m, map::INTERRUPT_PAGE, map::KERNEL_WORDS);
    zero(m, map::CONTROL_PAGE, map::CONTROL_WORDS);
}

#[tactic(auto, unfolding(model::specs::Fresh::timed))]
fn set_clock(m: &mut Memory, line: u8, divider: u8)
    ensures { m.new ≡ Model.timed m.old line divider }
{
    write(m, map::CLOCK_LINE, line);
    write(m, map::DIVIDER, divider);
}

// Processor 1, priority 1, on page 236, running.
#[tactic(auto, using(crate::proofs::Laws::first_is))]
fn first_processor(m: &mut Memory)
    ensures { m.new ≡ Model.first_processor m.old }
{
    let page = ControlPage(map::FIRST_CONTROL);
    page.store(m, map::LABEL, map::FIRST_LABEL);
    Registers::starting_at(map::START_ADDRESS, 0).hand_back(m, page);
    write(m, map::PROCESSOR_LIST, map::FIRST_CONTROL);
    runs(m, page);
}

// Pages 237-255 are free in order: each but the last links to the next.
#[tactic(auto, using(crate::proofs::Laws::chaining))]
fn free_pages(m: &mut Memory)
    ensures { m.new ≡ Model.freed m.old }
{
    write(m, map::FREE_LIST, map::FIRST_FREE);
    write(m, map::FREE_SEMAPHORE, map::FREE_PAGES);
    for page in map::FIRST_FREE..map::LAST_CONTROL {
        ControlPage(page).store(m, map::LINK, page + 1);
    }
}

// Codes 0-14 are built in.
#[tactic(auto, using(crate::proofs::Laws::building))]
fn build_in(m: &mut Memory)
    ensures { m.new ≡ Model.all_built_in Map.built_in_codes m.old }
{
    for code in (0..map::BUILT_IN_CODES).rev() {
        write(
            m,
            map::CODE_WORDS + 2 * wide(code),
            instructions::BUILT_IN_WORD,
        );
    }
}

#[tactic(auto, using(crate::proofs::Laws::started_is))]
pub fn start(m: &mut Memory, line: u8, divider: u8)
    ensures { m.new ≡ Model.started m.old line divider }
{
    clear_pages(m);
    set_clock(m, line, divider);
    first_processor(m);
    free_pages(m);
    build_in(m);
    write(m, map::FIRST_UNUSED, 1);
}
