// The lines of two memories as they are printed. They are kept, to be written with others; where a line begins there is room for one.
ghost use Rattle.std.specs.Prelude.{◌≤◌, ◌+◌, length};
ghost use Rattle.screen.specs.Sizes.{line_room, kept_room};
ghost use Rattle.report.specs.Sizes.{side_room, name_room, parts_room};

use model::{Line, Parts, Refusal, Said, Side};
use screen::kept::Kept;
use std::io;

// Which of the two.
fn side(given: Side) -> &'static str
    ensures { length result.now ≤ side_room }
{
    match given {
        Side::First => "first",
        Side::Second => "second",
    }
}

// An address, and what stands there in the first and in the second.
fn word_line(kept: &mut Kept, at: u16, first: u8, second: u8)
    requires { length kept.old + line_room ≤ kept_room }
{
    kept.number(at);
    kept.text(" ");
    kept.number(first);
    kept.text(" ");
    kept.number(second);
    kept.text("\n");
}

// The refusal of one of the two, as that of a call.
fn refusal<P: Print>(rt: &P, kept: &mut Kept, of: Side, given: Refusal) -> io::Result<()>
    requires { length kept.old + line_room ≤ kept_room }
{
    kept.text(side(of));
    kept.text(": ");
    kept.make_room(rt)?;
    kept.refused(given);
    Ok(())
}

// The beginning of a processor's line.
fn processor(kept: &mut Kept, name: u8)
    requires { length kept.old + name_room ≤ kept_room }
    ensures { length kept.new ≤ length kept.old + name_room }
{
    kept.text("processor ");
    kept.number(name);
    kept.text(": ");
}

fn only_in(kept: &mut Kept, name: u8, given: Side)
    requires { length kept.old + line_room ≤ kept_room }
{
    processor(kept, name);
    kept.text("only in ");
    kept.text(side(given));
    kept.text("\n");
}

// One of the parts, if it differs.
fn part(kept: &mut Kept, differs: bool, name: &str)
    requires { length kept.old + length name.now ≤ kept_room }
    ensures { length kept.new ≤ length kept.old + length name.now }
{
    if differs {
        kept.text(name);
    }
}

// The parts that differ, a space before each.
fn parts(kept: &mut Kept, given: Parts)
    requires { length kept.old + parts_room ≤ kept_room }
    ensures { length kept.new ≤ length kept.old + parts_room }
{
    part(kept, given.state, " state");
    part(kept, given.priority, " priority");
    part(kept, given.q1, " Q1");
    part(kept, given.q2, " Q2");
}

fn differs_in(kept: &mut Kept, name: u8, given: Parts)
    requires { length kept.old + line_room ≤ kept_room }
{
    processor(kept, name);
    kept.text("differs in");
    parts(kept, given);
    kept.text("\n");
}

// What is said of a name.
fn processor_line(kept: &mut Kept, name: u8, said: Said)
    requires { length kept.old + line_room ≤ kept_room }
{
    match said {
        Said::OnlyIn(given) => only_in(kept, name, given),
        Said::DiffersIn(given) => differs_in(kept, name, given),
    }
}

pub fn tell_line<P: Print>(rt: &P, kept: &mut Kept, line: Line) -> io::Result<()>
    requires { length kept.old + line_room ≤ kept_room }
{
    match line {
        Line::Word(at, first, second) => word_line(kept, at, first, second),
        Line::Refused(of, given) => refusal(rt, kept, of, given)?,
        Line::Processor(name, said) => processor_line(kept, name, said),
        Line::Same => kept.text("same\n"),
    }
    Ok(())
}
