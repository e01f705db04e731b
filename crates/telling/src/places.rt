// Where a word stands: of interrupt k + 1, of code c, of entry i + 1, and the grant of a name; and the control page k behind the first.
ghost use Rattle.std.specs.Prelude.{◌≡◌, ◌<◌, ◌+◌};
ghost use Rattle.model.specs.Map as Map;

use model::{ControlPage, map, wide};

pub fn semaphore_after(k: u8) -> u16
    ensures { (result ≡ Map.semaphore_after k) × (result < 8192) }
{
    map::SEMAPHORES_AFTER + 2 * wide(k)
}

pub fn header_after(k: u8) -> u16
    ensures { (result ≡ Map.header_after k) × (result < 8192) }
{
    map::HEADERS_AFTER + 2 * wide(k)
}

pub fn code_word(c: u8) -> u16
    ensures { result ≡ Map.code_word c }
{
    map::CODE_WORDS + 2 * wide(c)
}

pub fn entry_after(i: u8) -> u16
    ensures { result ≡ Map.entry_after i }
{
    map::ENTRIES_AFTER + wide(i)
}

pub fn grant_for(name: u8) -> u16
    ensures { (result ≡ Map.grant_for name) × (result < 8192) }
{
    map::GRANTS + wide(name)
}

pub fn control(k: u8) -> ControlPage
    requires { k < 20 }
    ensures { result.0 ≡ Map.first_control + k }
{
    ControlPage(map::FIRST_CONTROL + k)
}
