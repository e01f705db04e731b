// What the orders of a script lend to the calls, out of the program's 8,200 words and of the numbers of a line: a file or a buffer of settings, which is copied
// out for the call, and copied back where the call writes; and the list of a burst, in bytes.
#![tactic(auto)]

pub mod sizes;

ghost use Rattle.std.specs.Prelude.{◌≡◌, ◌++◌, ◌≤◌, ◌+◌, length, drop};
ghost use Rattle.model.specs.Answer.Outcome.{gives};
ghost use Rattle.model.specs.Coded.{told, writing_told};
ghost use Rattle.lending.specs.Sizes.{buffer_words};
ghost use Rattle.lending.specs.Parts as Parts;
ghost use Rattle.lending.specs.Lists as Lists;

use files::laying::lay;
use model::{Answer, Refusal, map};

// So many words from a place on become the first of the copy.
#[tactic(auto, using(crate::proofs::Parts::parts))]
fn copy_out(copied: &mut [u8], m: &[u8], at: usize, count: usize)
    requires { (at + count ≤ length m.now) × (count ≤ length copied.old) }
    ensures { copied.new ≡ Parts.part m.now at count ++ drop count copied.old }
{
    let end = at + count;
    copied[..count].copy_from_slice(&m[at..end]);
}

// The fresh start from the file in so many words from a place on.
#[tactic(auto, using(crate::proofs::Parts::parts))]
pub fn fresh_from(m: &mut [u8], lent: usize, at: usize, count: usize) -> Result<Answer, Refusal>
    requires { (length m.old ≡ buffer_words) × (lent ≤ length m.old) × (at + count ≤ length m.old) }
    ensures { gives (told result) m.new ≡ Parts.fresh_from m.old lent at count }
{
    let mut file = [0u8; sizes::BUFFER_WORDS];
    copy_out(&mut file, m, at, count);
    kernel::fresh_from_settings(&mut m[0..lent], &file[0..count])
}

// The write call on the buffer in `room` words from `file` on, with the block in `long` words from `block` on: the buffer is copied out, and copied back.
pub fn write_in(
    m: &mut [u8],
    file: usize,
    room: usize,
    used: usize,
    block: usize,
    long: usize,
) -> Result<usize, Refusal>
    requires { (length m.old ≡ buffer_words) × (file + room ≤ length m.old) × (block + long ≤ length m.old) }
    ensures { gives (writing_told result) m.new ≡ Parts.written_in m.old file room used block long }
{
    let mut copied = [0u8; sizes::BUFFER_WORDS];
    copy_out(&mut copied, m, file, room);
    let buffer = &mut copied[0..room];
    let end = block + long;
    let given = kernel::write_settings(buffer, used, &m[block..end]);
    lay(m, file, buffer);
    given
}

// A number in a byte; one that is no byte as 255, which is as bad.
#[tactic(auto, unfolding(crate::specs::Lists::in_byte))]
fn in_byte(given: u16) -> u8
    ensures { result ≡ Lists.in_byte given }
{
    u8::try_from(given).unwrap_or(map::A_WORD)
}

// The first `count` numbers given become the first bytes of the list.
#[tactic(auto, using(crate::proofs::Laws::lists))]
pub fn gather(list: &mut [u8], given: &[u16], count: usize)
    requires { (count ≤ length list.old) × (count ≤ length given.now) }
    ensures { list.new ≡ Lists.gathered count given.now list.old }
{
    for (at, number) in given[..count].iter().enumerate() {
        list[at] = in_byte(*number);
    }
}
