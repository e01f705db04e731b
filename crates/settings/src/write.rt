// Writing: a block and its trailer go to the old trailer's place in a lent buffer; every other byte of it stays.
ghost use Rattle.std.specs.Prelude.{◌≡◌, ◌≤◌, length};
ghost use Rattle.model.specs.Layout as Layout;
ghost use Rattle.model.specs.Answer.Outcome.{gives};
ghost use Rattle.model.specs.Settings as Settings;
ghost use Rattle.model.specs.Coded.{fit_told, writing_told};

use crate::block::of_block;
use crate::file::of_file;
use model::{Refusal, layout};

// The number that refuses, or 0.
#[tactic(auto, unfolding(model::specs::Settings::weight, model::specs::Coded::fit_told, model::specs::Coded::refusal, model::specs::Coded::refusal_number))]
fn weight(fit: Result<(), Refusal>) -> u8
    ensures { result ≡ Settings.weight (fit_told fit) }
{
    match fit {
        Ok(()) => 0,
        Err(refusal) => u8::from(refusal),
    }
}

// Of the verdicts of the file and of the block the one with the greater number; of two alike the file's.
#[tactic(auto, unfolding(model::specs::Settings::worse))]
fn worse(file: Result<(), Refusal>, block: Result<(), Refusal>) -> Result<(), Refusal>
    ensures { fit_told result ≡ Settings.worse (fit_told file) (fit_told block) }
{
    if weight(file) < weight(block) {
        block
    } else {
        file
    }
}

// The verdict of the bytes in use: an empty file may be written to.
#[tactic(auto, unfolding(model::specs::Settings::of_used, model::specs::Coded::fit_told))]
fn of_used(file: &[u8]) -> Result<(), Refusal>
    ensures { fit_told result ≡ Settings.of_used file.now }
{
    if file.is_empty() {
        return Ok(());
    }
    of_file(file)
}

// The verdict of both.
fn of_both(file: &[u8], block: &[u8]) -> Result<(), Refusal>
    ensures { fit_told result ≡ Settings.worse (Settings.of_used file.now) (Layout.of_block block.now) }
{
    worse(of_used(file), of_block(block))
}

// Where the block goes: to the old trailer's place, or to the start.
fn place_for(used: usize) -> usize
    ensures { (result ≡ Settings.place_for used) × (result ≤ used) }
{
    used.saturating_sub(layout::TRAILER_BYTES)
}

// The trailer of a block of at most 255 bytes.
#[tactic(auto, using(crate::proofs::Writes::writing))]
fn trailer_for(block: &[u8]) -> [u8; layout::TRAILER_BYTES]
    requires { (2 ≤ length block.now) × (length block.now ≤ 255) }
    ensures { result ≡ Settings.trailer_for block.now }
{
    let [high, low] = (block.len() as u16).to_be_bytes();
    [high, low, block[layout::VERSION], block[layout::COUNT]]
}

// The block and its trailer, where there is room.
#[tactic(auto, using(crate::proofs::Writes::writing))]
fn write(buffer: &mut [u8], used: usize, block: &[u8]) -> Result<usize, Refusal>
    requires { (used ≤ length buffer.old) × (2 ≤ length block.now) × (length block.now ≤ 255) }
    ensures { gives (writing_told result) buffer.new ≡ Settings.writes buffer.old used block.now }
{
    let at = place_for(used);
    let behind = at + block.len();
    let end = behind + layout::TRAILER_BYTES;
    if buffer.len() < end {
        return Err(Refusal::NoRoom);
    }
    buffer[at..behind].copy_from_slice(block);
    buffer[behind..end].copy_from_slice(&trailer_for(block));
    Ok(end)
}

// Writes a block into a buffer of which so many bytes are in use. Any buffer, any number and any bytes get an answer; refused, no byte changes.
#[tactic(auto, using(crate::proofs::Writes::writing))]
pub fn write_settings(buffer: &mut [u8], used: usize, block: &[u8]) -> Result<usize, Refusal>
    ensures { gives (writing_told result) buffer.new ≡ Settings.write_settings buffer.old used block.now }
{
    let file = buffer.get(..used).ok_or(Refusal::NoRoom)?;
    of_both(file, block)?;
    write(buffer, used, block)
}
