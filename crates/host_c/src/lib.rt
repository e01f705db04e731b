// The nine calls of `host` as C calls them: a static library exports each under its own name, and each only calls the library's function and states its
// clauses again (include/wik.h).
#![tactic(auto)]

ghost use Rattle.std.specs.Prelude.{◌≡◌};
ghost use Rattle.model.specs.Answer.{answer_of, memory_of};
ghost use Rattle.model.specs.Bytes as Model;
ghost use Rattle.model.specs.Settings as Settings;
ghost use Rattle.host.specs.Encoded.{encoded, encoded_held, encoded_verdict, encoded_writing, set_to};

#[unsafe(no_mangle)]
pub extern "C" fn wik_fresh(memory: &mut [u8], line: u16, divider: u16) -> u64
    ensures value { result ≡ encoded (answer_of (Model.fresh memory.old line divider)) }
    ensures memory_after { memory.new ≡ memory_of (Model.fresh memory.old line divider) }
{
    host::wik_fresh(memory, line, divider)
}

#[unsafe(no_mangle)]
pub extern "C" fn wik_fresh_from_settings(memory: &mut [u8], file: &[u8]) -> u64
    ensures value { result ≡ encoded (answer_of (Model.from_settings memory.old file.now)) }
    ensures memory_after { memory.new ≡ memory_of (Model.from_settings memory.old file.now) }
{
    host::wik_fresh_from_settings(memory, file)
}

#[unsafe(no_mangle)]
pub extern "C" fn wik_write_settings(file: &mut [u8], used: usize, block: &[u8]) -> u64
    ensures value { result ≡ encoded_writing (answer_of (Settings.write_settings file.old used block.now)) }
    ensures file_after { file.new ≡ memory_of (Settings.write_settings file.old used block.now) }
{
    host::wik_write_settings(file, used, block)
}

#[unsafe(no_mangle)]
pub extern "C" fn wik_instruction(memory: &mut [u8]) -> u64
    ensures value { result ≡ encoded (answer_of (Model.instruction memory.old)) }
    ensures memory_after { memory.new ≡ memory_of (Model.instruction memory.old) }
{
    host::wik_instruction(memory)
}

#[unsafe(no_mangle)]
pub extern "C" fn wik_interrupt(memory: &mut [u8], number: u16, class: u16) -> u64
    ensures value { result ≡ encoded (answer_of (Model.interrupt memory.old number class)) }
    ensures memory_after { memory.new ≡ memory_of (Model.interrupt memory.old number class) }
{
    host::wik_interrupt(memory, number, class)
}

#[unsafe(no_mangle)]
pub extern "C" fn wik_burst(memory: &mut [u8], list: &[u8]) -> u64
    ensures value { result ≡ encoded (answer_of (Model.burst memory.old list.now)) }
    ensures memory_after { memory.new ≡ memory_of (Model.burst memory.old list.now) }
{
    host::wik_burst(memory, list)
}

#[unsafe(no_mangle)]
pub extern "C" fn wik_read_registers(memory: &[u8]) -> u64
    ensures { result ≡ encoded_held (answer_of (Model.read_registers memory.now)) }
{
    host::wik_read_registers(memory)
}

#[unsafe(no_mangle)]
pub extern "C" fn wik_set_registers(
    memory: &mut [u8],
    a: u16,
    s: u16,
    p: u16,
    z: u16,
    ci: u16,
    lr: u16,
    w: u16,
) -> u64
    ensures value { result ≡ encoded (answer_of (Model.set_registers memory.old (set_to a s p z ci lr w))) }
    ensures memory_after { memory.new ≡ memory_of (Model.set_registers memory.old (set_to a s p z ci lr w)) }
{
    host::wik_set_registers(memory, a, s, p, z, ci, lr, w)
}

#[unsafe(no_mangle)]
pub extern "C" fn wik_judge(memory: &[u8]) -> u64
    ensures { result ≡ encoded_verdict (answer_of (Model.judge memory.now)) }
{
    host::wik_judge(memory)
}
