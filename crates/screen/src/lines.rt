// The lines that the script language fixes: one for each answer of a call, and those of an order that is not carried out. They are kept, to be
// written with others.
ghost use Rattle.std.specs.Prelude.{◌≤◌, ◌+◌, ◌*◌, length};
ghost use Rattle.screen.specs.Sizes.{number_room, line_room, kept_room};

use crate::kept::Kept;
use model::{Answer, Fault, Name, Refusal, Registers};

impl Kept {
    pub fn answer(&mut self, given: Result<Answer, Refusal>)
        requires { length self.old + line_room ≤ kept_room }
    {
        match given {
            Ok(Answer::Done) => self.text("done\n"),
            Ok(Answer::Waits) => self.text("waits\n"),
            Ok(Answer::HandedOut(program, arguments)) => self.handed_out(program, arguments),
            Ok(Answer::Fault(fault, name)) => self.faulted(fault, name),
            Err(refusal) => self.refused(refusal),
        }
    }

    pub fn held(&mut self, given: Result<Registers, Refusal>)
        requires { length self.old + line_room ≤ kept_room }
    {
        match given {
            Ok(held) => self.registers(held),
            Err(refusal) => self.refused(refusal),
        }
    }

    pub fn verdict(&mut self, given: Result<(), Refusal>)
        requires { length self.old + line_room ≤ kept_room }
    {
        match given {
            Ok(()) => self.text("well-formed\n"),
            Err(refusal) => self.refused(refusal),
        }
    }

    pub fn writing(&mut self, given: Result<usize, Refusal>)
        requires { length self.old + line_room ≤ kept_room }
    {
        match given {
            Ok(long) => self.written(long),
            Err(refusal) => self.refused(refusal),
        }
    }

    // The number of a refusal, and what is told beside it.
    pub fn refused(&mut self, refusal: Refusal)
        requires { length self.old + line_room ≤ kept_room }
    {
        self.text("refused ");
        self.number(u8::from(refusal));
        match refusal.place() {
            Some(place) => self.at_place(place),
            None => self.text("\n"),
        }
    }

    pub fn not_allowed(&mut self)
        requires { length self.old + line_room ≤ kept_room }
    {
        self.text("not allowed\n");
    }

    pub fn not_understood(&mut self, line: u64)
        requires { length self.old + line_room ≤ kept_room }
    {
        self.text("line ");
        self.number(line);
        self.text(": not understood\n");
    }

    fn at_place(&mut self, place: u16)
        requires { length self.old + 32 ≤ kept_room }
    {
        self.text(" at ");
        self.number(place);
        self.text("\n");
    }

    fn handed_out(&mut self, program: u16, arguments: u16)
        requires { length self.old + line_room ≤ kept_room }
    {
        self.text("handed out ");
        self.number(program);
        self.text(" ");
        self.number(arguments);
        self.text("\n");
    }

    fn faulted(&mut self, fault: Fault, name: Name)
        requires { length self.old + line_room ≤ kept_room }
    {
        self.text("fault ");
        self.number(u8::from(fault));
        self.text(" by ");
        self.number(name.0);
        self.text("\n");
    }

    // A space, and a register.
    fn register(&mut self, value: u16)
        requires { length self.old + (1 + number_room) ≤ kept_room }
        ensures { length self.new ≤ length self.old + (1 + number_room) }
    {
        self.text(" ");
        self.number(value);
    }

    fn registers(&mut self, held: Registers)
        requires { length self.old + line_room ≤ kept_room }
    {
        self.text("registers");
        for value in [held.a, held.s, held.p, held.z, held.ci, held.lr, held.w] {
            self.register(value);
        }
        self.text("\n");
    }

    fn written(&mut self, long: usize)
        requires { length self.old + line_room ≤ kept_room }
    {
        self.text("written ");
        self.number(long);
        self.text("\n");
    }
}
