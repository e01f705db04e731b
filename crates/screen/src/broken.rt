// What is said of a broken memory, for a technician: its class in words, what stands at the address, and where to read on.
use crate::rows::interrupt_at;
use model::{Broken, Class, map, wide};
use std::io;

// "30 a control page used twice or not at all, 31 a wait queue or semaphore, 32 a processor or message record, 33 the code or error table, 34
// counters and the running entry".
fn class_text(class: Class) -> &'static str {
    match class {
        Class::Pages => "a control page is used twice or not at all",
        Class::Waits => "a wait queue or a semaphore does not fit",
        Class::Records => "the record of a processor or of a message does not fit",
        Class::Tables => "the table of codes or of errors does not fit",
        Class::Counters => "a counter or the entry of who runs does not fit",
    }
}

// A semaphore or a queue of an interrupt: the semaphores have every other word, as that of the free list has.
fn interrupt_text<P: Print>(rt: &P, place: u16) -> io::Result<()> {
    let interrupt = interrupt_at(place);
    if place % 2 == map::FREE_SEMAPHORE % 2 {
        return println!(rt; "the semaphore of interrupt {interrupt}");
    }
    println!(rt; "the queue of interrupt {interrupt}")
}

// "On page 7: 15 clock line, 16-19 counters C0-C3, 20 free list, 21 its semaphore, 22 queue waiting for a page, 23 processor list, 24 running
// page, 25 running priority and name, 26 zero, 27 divider".
fn page_seven_text(place: u16) -> &'static str {
    match place {
        map::CLOCK_LINE => "the line of the clock",
        map::C0 => "counter C0",
        map::C1 => "counter C1",
        map::C2 => "counter C2",
        map::C3 => "counter C3",
        map::FREE_LIST => "the free list",
        map::FREE_SEMAPHORE => "the semaphore of the free list",
        map::PAGE_QUEUE => "the queue of those that wait for a page",
        map::PROCESSOR_LIST => "the processor list",
        map::RUNNING_PAGE => "the page of the one that runs",
        map::RUNNING_LABEL => "priority and name of the one that runs",
        map::ZERO_WORD => "a word that must be zero",
        map::DIVIDER => "the divider of the clock",
        _ => "a word that is not read",
    }
}

// A word of page 9.
fn error_text<P: Print>(rt: &P, number: u16) -> io::Result<()> {
    if number == 0 {
        return println!(rt; "the first unused word of the table of errors");
    }
    println!(rt; "entry {number} of the table of errors")
}

// A word of page 10.
fn grant_text<P: Print>(rt: &P, number: u16) -> io::Result<()> {
    if number == 0 || wide(map::LAST_NAME) < number {
        return println!(rt; "a word that must be zero");
    }
    println!(rt; "the grant of processor {number}")
}

// A word of pages 8, 9 and 10.
fn table_text<P: Print>(rt: &P, place: u16) -> io::Result<()> {
    let number = place % map::PAGE_SIZE;
    if place < map::FIRST_UNUSED {
        let code = number / 2;
        return println!(rt; "code {code}");
    }
    if place < map::GRANTS {
        return error_text(rt, number);
    }
    grant_text(rt, number)
}

// "a page is offending by its word 0 and a semaphore by its own word".
fn control_text(number: u16) -> &'static str {
    if number == map::OWN_SEMAPHORE {
        return "the semaphore of a processor";
    }
    "this control page, any of its words"
}

// What stands at an address that can be told.
fn place_text<P: Print>(rt: &P, place: u16) -> io::Result<()> {
    if place < map::CLOCK_LINE {
        return interrupt_text(rt, place);
    }
    if place < map::CODE_WORDS {
        return rt.println(page_seven_text(place));
    }
    if place < map::GRANTS_END {
        return table_text(rt, place);
    }
    rt.println(control_text(place % map::PAGE_SIZE))
}

// The class as the answer of a call says it too; the place, and what stands there.
pub fn broken<P: Print>(rt: &P, found: Broken) -> io::Result<()> {
    let class = class_text(found.class);
    let refusal = u8::from(found.class);
    let place = found.address;
    let page = place / map::PAGE_SIZE;
    let word = place % map::PAGE_SIZE;
    println!(rt; "the memory is broken: {class} (refused {refusal} at {place})")?;
    print!(rt; "look at page {page}, word {word}: ")?;
    place_text(rt, place)?;
    println!(rt; "what to do: see refusal {refusal} in docs/OPERATORS.md")
}
