// The orders of a script, each on the program's 8,200 words, of which a call is lent the first.
ghost use Rattle.std.specs.Prelude.{◌≡◌, ◌≤◌, length};
ghost use Rattle.script.specs.Sizes.{most_numbers};

use crate::desk::{Desk, Failure};
use files::replace;
use kernel::judge;
use lending::gather;
use model::{Answer, Refusal, Registers};
use screen::broken::broken;
use screen::state;
use script::{Order, Seven};
use std::fs::Files;
use std::io;

fn registers_of(wanted: Seven) -> Registers {
    Registers {
        a: wanted.a,
        s: wanted.s,
        p: wanted.p,
        z: wanted.z,
        ci: wanted.ci,
        lr: wanted.lr,
        w: wanted.w,
        stopped: 0,
    }
}

// The values of an order, behind its address.
fn values(given: &[u16], count: usize) -> Result<&[u16], Failure> {
    if script::sizes::MOST_VALUES < count {
        return Err(Failure::NotAllowed);
    }
    given.get(1..=count).ok_or(Failure::NotAllowed)
}

// A call on the first words of the memory, which it is lent.
fn on_lent<F: FnOnce(&mut [u8]) -> Result<Answer, Refusal>>(
    m: &mut [u8],
    lent: usize,
    call: F,
) -> Result<Answer, Refusal>
    requires callable { F.IsAlwaysCallable call }
    requires within { lent ≤ length m.old }
{
    call(&mut m[..lent])
}

impl<'a, R: Files + Print, E: Print> Desk<'a, R, E> {
    // A call, and the line of its answer.
    fn call<F: FnOnce(&mut [u8]) -> Result<Answer, Refusal>>(&mut self, call: F) -> io::Result<()>
        requires { F.IsAlwaysCallable call }
    {
        let given = on_lent(&mut self.m, self.lent, call);
        self.answer(given)
    }

    fn burst(&mut self, given: &[u16], count: usize) -> Result<(), Failure>
        requires { length given.now ≡ most_numbers }
    {
        if script::sizes::MOST_NUMBERS < count {
            return Err(Failure::NotAllowed);
        }
        let mut list = [0u8; script::sizes::MOST_NUMBERS];
        gather(&mut list, given, count);
        let list = &list[..count];
        self.call(|m| kernel::burst(m, list))?;
        Ok(())
    }

    // The state; of a memory that the judge refuses, whose lists could mislead, only what is broken; and a memory that is not lent whole has nothing to
    // show. It is written at once, behind what is kept.
    fn show(&mut self) -> io::Result<()> {
        self.write()?;
        match judge(&self.m[..self.lent]) {
            Ok(()) => state(self.rt, self.m.first_chunk().unwrap()),
            Err(Refusal::Broken(found)) => broken(self.rt, found),
            Err(refusal) => {
                let number = u8::from(refusal);
                println!(self.rt; "nothing to show: the length is not 8192 (refused {number})")
            }
        }
    }

    // `save FILE`: the lent words go to the file whose name stands in the line, between two places; that they lie there is tested, though `parse` gives no
    // others. Where the system refuses, it has said so on standard error, behind what was kept.
    fn save(&mut self, line: &[u8], begin: usize, end: usize) -> Result<(), Failure> {
        if script::sizes::LONGEST_LINE < end {
            return Err(Failure::NotAllowed);
        }
        let name = line.get(begin..end).ok_or(Failure::NotAllowed)?;
        self.write()?;
        if replace(self.rt, self.errors, name, &self.m[..self.lent]).is_ok() {
            self.writing(Ok(self.lent))?;
        }
        Ok(())
    }

    // Carries out the order of a line, with the numbers given there.
    fn obey(&mut self, order: Order, line: &[u8], given: &[u16]) -> Result<(), Failure>
        requires { length given.now ≡ most_numbers }
    {
        match order {
            Order::Nothing => {}
            Order::Fresh(clock, divider) => self.call(|m| kernel::fresh(m, clock, divider))?,
            Order::Step => self.call(|m| kernel::instruction(m))?,
            Order::Interrupt(number, class) => self.call(|m| kernel::interrupt(m, number, class))?,
            Order::Burst(count) => self.burst(given, count)?,
            Order::Registers => {
                self.kept.make_room(self.rt)?;
                self.kept.held(kernel::read_registers(&self.m[..self.lent]));
            }
            Order::Set(wanted) => self.call(|m| kernel::set_registers(m, registers_of(wanted)))?,
            Order::Judge => {
                self.kept.make_room(self.rt)?;
                self.kept.verdict(judge(&self.m[..self.lent]));
            }
            Order::Put(address, count) => self.put(address, values(given, count)?)?,
            Order::Break(address, count) => self.put_anywhere(address, values(given, count)?)?,
            Order::Length(wanted) => self.lend(wanted)?,
            Order::Settings(address, long) => self.settings(address, long)?,
            Order::Write(wanted) => self.write_settings(wanted)?,
            Order::Save(begin, end) => self.save(line, begin, end)?,
            Order::Words(address, count) => self.look(address, count)?,
            Order::Changes => self.changes()?,
            Order::Show => self.show()?,
        }
        Ok(())
    }

    // Carries out a line, by its number.
    pub fn run_line(&mut self, line: &[u8], number: u64) -> io::Result<()> {
        let mut given = [0u16; script::sizes::MOST_NUMBERS];
        let Some(order) = script::parse(line, &mut given) else {
            return self.not_understood(number);
        };
        match self.obey(order, line, &given) {
            Ok(()) => Ok(()),
            Err(Failure::NotAllowed) => self.not_allowed(),
            Err(Failure::System(error)) => Err(error),
        }
    }
}
