// A block: its head, its label and its entries, and the verdict of it.
ghost use Rattle.std.specs.Prelude.{◌≡◌, true, ◌≤◌, ◌+◌, ◌*◌, length};
ghost use Rattle.model.specs.Layout as Layout;
ghost use Rattle.model.specs.Coded.{fit_told};

use crate::entries::{Entries, are_entries, names_differ};
use fresh::startable;
use model::{Refusal, layout};

// How long the head of a block is.
#[tactic(auto, unfolding(model::specs::Layout::head_bytes))]
pub fn head_bytes(version: u8) -> usize
    ensures { (result ≡ Layout.head_bytes version) × (4 ≤ result) × (result ≤ 17) }
{
    match version {
        layout::FIRST_VERSION => layout::FIRST_HEAD,
        layout::SITED => layout::SITED_HEAD,
        _ => layout::LABELLED_HEAD,
    }
}

// How long a block with so many entries is.
pub fn block_bytes(version: u8, count: u8) -> usize
    ensures { (result ≡ Layout.block_bytes version count) × (4 ≤ result) × (result ≤ 1292) }
{
    head_bytes(version) + usize::from(count) * layout::ENTRY_BYTES
}

#[tactic(auto, using(crate::proofs::Laws::letters))]
pub fn is_letter(c: u8) -> bool
    ensures { result ≡ Layout.is_letter c }
{
    c.is_ascii_alphabetic()
}

// Whether the bytes are letters, and then zeros.
fn is_label(bytes: &[u8]) -> bool
    ensures { result ≡ Layout.is_label (length bytes.now) bytes.now 0 }
{
    bytes.iter().skip_while(|c| is_letter(**c)).all(|c| *c == 0)
}

// Whether the length is that of the version and the count, and the label, from version 3 on, is one.
#[tactic(auto, using(crate::proofs::Laws::label_part), unfolding(model::specs::Layout::is_laid_out, model::specs::Layout::head_bytes))]
fn is_laid_out(block: &[u8], version: u8, count: u8) -> bool
    ensures { result ≡ Layout.is_laid_out block.now version count }
{
    block.len() == block_bytes(version, count)
        && (version != layout::LABELLED || is_label(&block[layout::LABEL..layout::LABELLED_HEAD]))
}

// Whether the layout of a block is whole.
#[tactic(auto, unfolding(model::specs::Layout::is_block))]
fn is_block(block: &[u8]) -> bool
    ensures { result ≡ Layout.is_block block.now }
{
    let [version, count, ..] = *block else {
        return false;
    };
    version != 0 && count <= layout::MOST_ENTRIES && is_laid_out(block, version, count)
}

// Whether every value is in range, and no name stands twice.
#[tactic(auto, using(crate::proofs::Laws::blocks), unfolding(model::specs::Layout::in_bounds))]
fn in_bounds(block: &[u8]) -> bool
    requires { Layout.is_block block.now ≡ true }
    ensures { result ≡ Layout.in_bounds block.now }
{
    startable(
        u16::from(block[layout::LINE]),
        u16::from(block[layout::DIVIDER]),
    ) && are_entries(Entries::of(block))
        && names_differ(Entries::of(block))
}

// The verdict of a block, on any bytes.
#[tactic(auto, unfolding(model::specs::Layout::of_block, model::specs::Coded::fit_told, model::specs::Coded::refusal))]
pub fn of_block(block: &[u8]) -> Result<(), Refusal>
    ensures { fit_told result ≡ Layout.of_block block.now }
{
    let Some(&version) = block.first() else {
        return Err(Refusal::BrokenLayout);
    };
    if layout::OWN_VERSION < version {
        return Err(Refusal::TooNew(version));
    }
    if !is_block(block) {
        return Err(Refusal::BrokenLayout);
    }
    if !in_bounds(block) {
        return Err(Refusal::OutOfRange);
    }
    Ok(())
}
