// Memory map: words read and written, 13-bit addresses, protected words. An address stays a number below 8,192, with no type of its own: nearly all are
// constants of the map and sums of them, which a type would wrap and open at each use.
#![tactic(auto)]

ghost use Rattle.std.specs.Prelude.{◌≡◌, ◌<◌, ◌≤◌, ◌+◌};
ghost use Rattle.model.specs.Map as Map;
ghost use Rattle.model.specs.Address as Address;
ghost use Rattle.model.specs.Bytes as Model;

use model::{Memory, map, wide};

// The word at an address.
pub fn at(m: &Memory, address: u16) -> u8
    requires { address < 8192 }
    ensures { result ≡ Model.at m.now address }
{
    m[usize::from(address)]
}

// The value becomes the word at an address.
pub fn write(m: &mut Memory, address: u16, value: u8)
    requires { address < 8192 }
    ensures { m.new ≡ Model.write m.old address value }
{
    m[usize::from(address)] = value;
}

// The sum of two 13-bit addresses, modulo 8,192.
pub fn wrapped(address: u16, offset: u16) -> u16
    requires { (address < 8192) × (offset < 8192) }
    ensures { (result ≡ Address.wrapped address offset) × (result < 8192) }
{
    (address + offset) % map::MEMORY_SIZE
}

// The address in two words at an address: the low five bits of the first, and the second.
pub fn address_at(m: &Memory, address: u16) -> u16
    requires { address < 8192 }
    ensures { (result ≡ Model.address_at m.now address) × (result < 8192) }
{
    wide(at(m, address)) % map::HIGHS_WIDE * map::WORD_VALUES + wide(at(m, wrapped(address, 1)))
}

// The high five bits of an address, and the low eight.
pub fn high(address: u16) -> u8
    ensures { (result ≡ Map.high address) × (result < 32) }
{
    (address / map::WORD_VALUES % map::HIGHS_WIDE) as u8
}

pub fn low(number: u16) -> u8
    ensures { result ≡ Map.low number }
{
    (number % map::WORD_VALUES) as u8
}

// A semaphore, a counter or a reason: one more, one less.
pub fn raised(word: u8) -> u8
    ensures { result ≡ Map.raised word }
{
    word.wrapping_add(1)
}

pub fn lowered(word: u8) -> u8
    ensures { result ≡ Map.lowered word }
{
    word.wrapping_sub(1)
}

// Whether an address is protected.
#[tactic(auto, using(model::proofs::Tests::tests), unfolding(model::specs::Address::guarded))]
pub fn guarded(address: u16) -> bool
    ensures { result ≡ Address.guarded address }
{
    address < map::GUARDED_END
        || (map::GUARDED_FROM..map::GUARDED_TO).contains(&address)
        || map::GUARDED_LAST <= address
}

// Whether none of so many words from an address on is protected.
#[tactic(auto, using(crate::proofs::Laws::clear_all))]
pub fn clear(count: u8, address: u16) -> bool
    requires { address < 8192 }
    ensures { result ≡ Address.clear count address }
{
    (0..count).all(|offset| !guarded(wrapped(address, wide(offset))))
}

// So many words are copied.
#[tactic(auto, using(crate::proofs::Laws::copied))]
pub fn copy(m: &mut Memory, from: u16, to: u16, count: u8)
    requires { (from < 8192) × (to < 8192) }
    ensures { m.new ≡ Model.copy count m.old from to }
{
    let mut source = from;
    let mut target = to;
    for _ in 0..count {
        let word = at(m, source);
        write(m, target, word);
        source = wrapped(source, 1);
        target = wrapped(target, 1);
    }
}

// So many words from an address on become 0.
pub fn zero(m: &mut Memory, address: u16, count: u16)
    requires { address + count ≤ 8192 }
    ensures { m.new ≡ Model.zeroed count m.old address }
{
    let start = usize::from(address);
    m[start..start + usize::from(count)].fill(0);
}
