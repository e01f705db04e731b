// The processors of a well-formed memory: a row for each, with what it waits for, and below it its mail.
ghost use Rattle.std.specs.Prelude.{◌<◌};

use model::{ControlPage, Memory, Registers, map};
use processors::{name, priority, running, seat};
use queues::{Queue, page_at};
use std::io;

// How much text a message has.
fn message_text<P: Print>(rt: &P, size: u8) -> io::Result<()> {
    match size {
        0 => print!(rt; ", no text"),
        1 => print!(rt; ", 1 word"),
        _ => print!(rt; ", {size} words"),
    }
}

// The message of a page; marked, it is mail whose sender is gone.
fn message<P: Print>(rt: &P, m: &Memory, page: ControlPage) -> io::Result<()> {
    let note = page.word(m, map::NOTE);
    let size = page.word(m, map::SIZE);
    let from = note / map::FIELD;
    let flag = note % map::FIELD;
    if size == map::NOTICE {
        return println!(rt; "notice from {from}, flag {flag}");
    }
    print!(rt; "from {from}, flag {flag}")?;
    message_text(rt, size % map::MARK)?;
    if map::MARK <= size {
        print!(rt; ", its sender is gone")?;
    }
    println!(rt; "")
}

// The queue whose header is a word of a processor's page: each message in a line of its own, the first behind the label.
fn mail<P: Print>(rt: &P, m: &Memory, page: ControlPage, header: u16, label: &str) -> io::Result<()>
    requires { header < 32 }
{
    let mut label = label;
    for page in Queue::at(page.place(header)).pages(m) {
        print!(rt; "{label:<12}")?;
        message(rt, m, page)?;
        label = "";
    }
    Ok(())
}

// The mail that a processor waits for; 0 is any name, any flag.
fn wanted<P: Print>(rt: &P, name: u8, flag: u8) -> io::Result<()> {
    if name == 0 {
        print!(rt; "any message")?;
    } else {
        print!(rt; "a message from {name}")?;
    }
    if flag == 0 {
        return Ok(());
    }
    print!(rt; ", flag {flag}")
}

// The interrupt whose semaphore or queue stands at an address; 0 where that lies before them all.
pub fn interrupt_at(place: u16) -> u16 {
    place.saturating_sub(map::SEMAPHORES) / 2
}

// What the processor of a page waits for, by the address of its queue's semaphore: those of the interrupts lie before that of the free
// list, a processor's own behind it.
fn awaited<P: Print>(rt: &P, m: &Memory, page: ControlPage, semaphore: u16) -> io::Result<()> {
    let reason = page.word(m, map::REASON);
    if semaphore == map::FREE_SEMAPHORE {
        return print!(rt; "a free page");
    }
    if semaphore < map::FREE_SEMAPHORE {
        let interrupt = interrupt_at(semaphore);
        return print!(rt; "interrupt {interrupt}, count {reason}");
    }
    wanted(rt, reason / map::FIELD, reason % map::FIELD)
}

fn stopped(m: &Memory, page: ControlPage) -> bool {
    map::STOP_BIT <= page.word(m, map::STATE)
}

fn waits(m: &Memory, page: ControlPage) -> bool {
    page.word(m, map::STATE) % map::STOP_BIT / map::WAIT_BIT == 1
}

fn state_text(stopped: bool, waits: bool, runs: bool) -> &'static str {
    match (stopped, waits, runs) {
        (true, true, _) => "stopped, waits",
        (true, false, _) => "stopped",
        (false, true, _) => "waits",
        (false, false, true) => "runs",
        (false, false, false) => "ready",
    }
}

fn row<P: Print>(rt: &P, m: &Memory, page: ControlPage) -> io::Result<()> {
    let name = name(m, page).0;
    let priority = priority(m, page);
    let state = state_text(stopped(m, page), waits(m, page), running(m).0 == page.0);
    let registers = Registers::of(m, page);
    let lr = registers.lr;
    let a = registers.a;
    print!(rt; "  {name:>4}        {priority:>2}  {state:<16}{lr:>4}  {a:>3}")
}

fn processor<P: Print>(rt: &P, m: &Memory, page: ControlPage) -> io::Result<()> {
    row(rt, m, page)?;
    if waits(m, page) {
        print!(rt; "  ")?;
        awaited(rt, m, page, seat(m, page, map::INTERRUPTS).semaphore)?;
    }
    println!(rt; "")?;
    mail(rt, m, page, map::Q1, "        Q1")?;
    mail(rt, m, page, map::Q2, "        Q2")
}

pub fn all_processors<P: Print>(rt: &P, m: &Memory) -> io::Result<()> {
    if page_at(m, map::PROCESSOR_LIST).is_none() {
        return println!(rt; "  none");
    }
    for page in Queue::processors().pages(m) {
        processor(rt, m, page)?;
    }
    Ok(())
}
