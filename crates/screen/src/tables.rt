// The tables of a well-formed memory: free pages, grants, clock, codes and errors.
use model::{Fault, Memory, instructions, map, wide};
use std::io;
use words::{address_at, at};

// "Semaphores are signed bytes": the first below 0.
const NEGATIVE: u8 = 128;

// "The free semaphore is the free count less the waiters."
pub fn free_pages<P: Print>(rt: &P, semaphore: u8) -> io::Result<()> {
    if semaphore < NEGATIVE {
        return println!(rt; "free pages  {semaphore}, nobody waits for one");
    }
    if semaphore == map::A_WORD {
        return println!(rt; "free pages  none, 1 waits for one");
    }
    let waiters = map::A_WORD - semaphore + 1;
    println!(rt; "free pages  none, {waiters} wait for one")
}

// The first grant has the label.
pub fn all_grants<P: Print>(rt: &P, m: &Memory) -> io::Result<()> {
    let mut label = "grants";
    for name in 1..=map::LAST_NAME {
        let page = at(m, map::GRANTS + wide(name));
        if page != 0 {
            println!(rt; "{label:<12}page {page} to processor {name}")?;
            label = "";
        }
    }
    if label.is_empty() {
        return Ok(());
    }
    println!(rt; "{label:<12}none")
}

pub fn clock<P: Print>(rt: &P, m: &Memory) -> io::Result<()> {
    let line = at(m, map::CLOCK_LINE);
    let divider = at(m, map::DIVIDER);
    let c0 = at(m, map::C0);
    let c1 = at(m, map::C1);
    let c2 = at(m, map::C2);
    let c3 = at(m, map::C3);
    println!(rt; "clock       line {line}, divider {divider}, C0 {c0}, C1 {c1}, C2 {c2}, C3 {c3}")
}

// An own code and its program. The last code is never built in, so it is no exception.
fn own_code<P: Print>(rt: &P, m: &Memory, code: u8) -> io::Result<()> {
    let joined = if code < map::BUILT_IN_CODES {
        "but"
    } else {
        "and"
    };
    let program = address_at(m, map::CODE_WORDS + 2 * wide(code));
    println!(rt; "            {joined} {code} is own, its program at {program}")
}

// An absent code, unless it is the last.
fn absent_code<P: Print>(rt: &P, code: u8) -> io::Result<()> {
    if code < map::BUILT_IN_CODES {
        return println!(rt; "            but {code} is absent");
    }
    Ok(())
}

// A code, if it is not built in.
fn exception<P: Print>(rt: &P, m: &Memory, code: u8) -> io::Result<()> {
    match at(m, map::CODE_WORDS + 2 * wide(code)) / map::HIGHS {
        instructions::BUILT_IN => Ok(()),
        instructions::OWN => own_code(rt, m, code),
        _ => absent_code(rt, code),
    }
}

pub fn all_codes<P: Print>(rt: &P, m: &Memory) -> io::Result<()> {
    println!(rt; "codes       0 to 14 are built in")?;
    for code in 0..map::ALL_CODES {
        exception(rt, m, code)?;
    }
    Ok(())
}

fn fault_text(fault: Fault) -> &'static str {
    match fault {
        Fault::AbsentCode => "absent code",
        Fault::ExiOfExi => "EXI of EXI",
        Fault::CodeExists => "the code exists",
        Fault::KeptCode => "deleting code 0 or 1",
        Fault::BadWait => "no such interrupt to wait for, or count 0",
        Fault::NoMatch => "no such message in Q2",
        Fault::NoName => "no such processor",
        Fault::NotStartable => "the processor to start is not stopped, or also waits",
        Fault::NameExists => "the name is taken",
        Fault::NotStopped => "the processor to delete is not stopped",
        Fault::Protected => "protected word",
        Fault::BadArgument => "bad argument",
        Fault::AboveItself => "priority above its own",
    }
}

// An entry of page 9: "name*16 + fault".
fn error<P: Print>(rt: &P, label: &str, entered: u8) -> io::Result<()> {
    let fault = entered % map::FIELD;
    let name = entered / map::FIELD;
    let text = Fault::try_from(fault).map_or("unknown", fault_text);
    println!(rt; "{label:<12}fault {fault} by {name}: {text}")
}

// The first error has the label.
pub fn all_errors<P: Print>(rt: &P, m: &Memory) -> io::Result<()> {
    let unused = at(m, map::FIRST_UNUSED);
    if unused < 2 {
        return println!(rt; "errors      none");
    }
    error(rt, "errors", at(m, map::ENTRIES_AFTER))?;
    for number in 2..unused {
        error(rt, "", at(m, map::FIRST_UNUSED + wide(number)))?;
    }
    if unused == map::ENTRIES_FULL {
        println!(rt; "            the table is full: later faults are not entered")?;
    }
    Ok(())
}
