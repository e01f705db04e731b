// The public calls for hosts in C: each is lent the memory, and answers with one number (specs/Encoded.antt). `host_c` exports them (include/wik.h).
#![tactic(auto)]

ghost use Rattle.std.specs.Prelude.{◌≡◌, ◌<◌};
ghost use Rattle.model.specs.Answer.{answer_of, memory_of};
ghost use Rattle.model.specs.Coded.{told, held_told, verdict_told, writing_told};
ghost use Rattle.model.specs.Bytes as Model;
ghost use Rattle.model.specs.Settings as Settings;
ghost use Rattle.host.specs.Encoded.{encoded, encoded_held, encoded_verdict, encoded_writing, packed, refusal_code, set_to};

use kernel::{
    burst, fresh, fresh_from_settings, instruction, interrupt, judge, read_registers,
    set_registers, write_settings,
};
use model::{Answer, Refusal, Registers};

// A refusal's number, and what is told beside it.
#[tactic(auto, using(crate::proofs::Laws::refusal_sum))]
fn encode_refusal(refusal: Refusal) -> u64
    ensures { result ≡ refusal_code refusal }
{
    let place = refusal.place().map_or(0, u64::from);
    u64::from(u8::from(refusal)) + place * 256
}

#[tactic(auto, using(crate::proofs::Laws::coding))]
fn encode(answer: Result<Answer, Refusal>) -> u64
    ensures { result ≡ encoded (told answer) }
{
    match answer {
        Ok(Answer::Done) => 0,
        Ok(Answer::Waits) => 60,
        Ok(Answer::HandedOut(program, address)) => {
            61 + u64::from(program) * 256 + u64::from(address) * 16777216
        }
        Ok(Answer::Fault(fault, name)) => u64::from(u8::from(fault)) + u64::from(name.0) * 256,
        Err(refusal) => encode_refusal(refusal),
    }
}

// A, S, P, Z and CI, with LR and W.
#[tactic(auto, using(crate::proofs::Laws::coding))]
fn pack(r: Registers) -> u64
    ensures { result ≡ packed r }
{
    u64::from(r.a) * 256
        + u64::from(r.s) * 65536
        + u64::from(r.p) * 16777216
        + u64::from(r.z) * 33554432
        + u64::from(r.ci) * 67108864
        + u64::from(r.lr) * 134217728
        + u64::from(r.w) * 1099511627776
}

#[tactic(auto, using(crate::proofs::Laws::coding))]
fn encode_held(held: Result<Registers, Refusal>) -> u64
    ensures { result ≡ encoded_held (held_told held) }
{
    match held {
        Ok(registers) => pack(registers),
        Err(refusal) => encode_refusal(refusal),
    }
}

#[tactic(auto, using(crate::proofs::Laws::coding))]
fn encode_verdict(verdict: Result<(), Refusal>) -> u64
    ensures { result ≡ encoded_verdict (verdict_told verdict) }
{
    match verdict {
        Ok(()) => 0,
        Err(refusal) => encode_refusal(refusal),
    }
}

// The new length is left out: it need not fit.
#[tactic(auto, using(crate::proofs::Laws::coding))]
fn encode_writing(writing: Result<usize, Refusal>) -> u64
    ensures { result ≡ encoded_writing (writing_told writing) }
{
    match writing {
        Ok(_) => 62,
        Err(refusal) => encode_refusal(refusal),
    }
}

#[tactic(auto, using(crate::proofs::Laws::encodings))]
pub fn wik_fresh(memory: &mut [u8], line: u16, divider: u16) -> u64
    ensures value { result ≡ encoded (answer_of (Model.fresh memory.old line divider)) }
    ensures memory_after { memory.new ≡ memory_of (Model.fresh memory.old line divider) }
{
    encode(fresh(memory, line, divider))
}

#[tactic(auto, using(crate::proofs::Laws::encodings))]
pub fn wik_fresh_from_settings(memory: &mut [u8], file: &[u8]) -> u64
    ensures value { result ≡ encoded (answer_of (Model.from_settings memory.old file.now)) }
    ensures memory_after { memory.new ≡ memory_of (Model.from_settings memory.old file.now) }
{
    encode(fresh_from_settings(memory, file))
}

#[tactic(auto, using(crate::proofs::Laws::encodings))]
pub fn wik_write_settings(file: &mut [u8], used: usize, block: &[u8]) -> u64
    ensures value { result ≡ encoded_writing (answer_of (Settings.write_settings file.old used block.now)) }
    ensures file_after { file.new ≡ memory_of (Settings.write_settings file.old used block.now) }
{
    encode_writing(write_settings(file, used, block))
}

#[tactic(auto, using(crate::proofs::Laws::encodings))]
pub fn wik_instruction(memory: &mut [u8]) -> u64
    ensures value { result ≡ encoded (answer_of (Model.instruction memory.old)) }
    ensures memory_after { memory.new ≡ memory_of (Model.instruction memory.old) }
{
    encode(instruction(memory))
}

#[tactic(auto, using(crate::proofs::Laws::encodings))]
pub fn wik_interrupt(memory: &mut [u8], number: u16, class: u16) -> u64
    ensures value { result ≡ encoded (answer_of (Model.interrupt memory.old number class)) }
    ensures memory_after { memory.new ≡ memory_of (Model.interrupt memory.old number class) }
{
    encode(interrupt(memory, number, class))
}

#[tactic(auto, using(crate::proofs::Laws::encodings))]
pub fn wik_burst(memory: &mut [u8], list: &[u8]) -> u64
    ensures value { result ≡ encoded (answer_of (Model.burst memory.old list.now)) }
    ensures memory_after { memory.new ≡ memory_of (Model.burst memory.old list.now) }
{
    encode(burst(memory, list))
}

#[tactic(auto, using(crate::proofs::Laws::encodings))]
pub fn wik_read_registers(memory: &[u8]) -> u64
    ensures { result ≡ encoded_held (answer_of (Model.read_registers memory.now)) }
{
    encode_held(read_registers(memory))
}

#[tactic(auto, using(crate::proofs::Laws::encodings))]
pub fn wik_set_registers(
    memory: &mut [u8],
    a: u16,
    s: u16,
    p: u16,
    z: u16,
    ci: u16,
    lr: u16,
    w: u16,
) -> u64
    ensures value { result ≡ encoded (answer_of (Model.set_registers memory.old (set_to a s p z ci lr w))) }
    ensures memory_after { memory.new ≡ memory_of (Model.set_registers memory.old (set_to a s p z ci lr w)) }
{
    let r = Registers {
        a,
        s,
        p,
        z,
        ci,
        lr,
        w,
        stopped: 0,
    };
    encode(set_registers(memory, r))
}

#[tactic(auto, using(crate::proofs::Laws::encodings))]
pub fn wik_judge(memory: &[u8]) -> u64
    ensures { result ≡ encoded_verdict (answer_of (Model.judge memory.now)) }
{
    encode_verdict(judge(memory))
}
