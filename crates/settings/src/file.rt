// A file: blocks, oldest first, and the trailer that points back to the newest. Older blocks are never looked at.
ghost use Rattle.std.specs.Prelude.{◌≡◌, true, ◌≤◌, ◌+◌, length};
ghost use Rattle.model.specs.Layout as Layout;
ghost use Rattle.model.specs.Coded.{fit_told};

use crate::block::{block_bytes, of_block};
use model::{Refusal, Trailer, layout};

#[tactic(auto, using(crate::proofs::Laws::trailer_is))]
fn trailer_in(file: &[u8]) -> Trailer
    requires { 4 ≤ length file.now }
    ensures { result ≡ Layout.trailer_in file.now }
{
    let bytes = file.last_chunk().unwrap();
    Trailer::from(*bytes)
}

// The part of the file that lies at a distance before the trailer, up to it.
fn back(file: &[u8], distance: usize) -> &[u8]
    requires { distance + 4 ≤ length file.now }
    ensures { result.now ≡ Layout.back file.now distance }
{
    let end = file.len() - layout::TRAILER_BYTES;
    let start = end - distance;
    &file[start..end]
}

// Whether a block begins as the trailer says.
#[tactic(auto, unfolding(model::specs::Layout::begins))]
fn begins(block: &[u8], trailer: Trailer) -> bool
    requires { 2 ≤ length block.now }
    ensures { result ≡ Layout.begins block.now trailer }
{
    block[layout::VERSION] == trailer.version && block[layout::COUNT] == trailer.count
}

// Whether the trailer points back to a block of its version and number of entries.
#[tactic(auto, unfolding(model::specs::Layout::points_back))]
fn points_back(file: &[u8], trailer: Trailer) -> bool
    requires { 4 ≤ length file.now }
    ensures { result ≡ Layout.points_back file.now trailer }
{
    let distance = usize::from(trailer.distance);
    distance == block_bytes(trailer.version, trailer.count)
        && distance <= file.len() - layout::TRAILER_BYTES
        && begins(back(file, distance), trailer)
}

#[tactic(auto, unfolding(model::specs::Layout::is_trailer))]
fn is_trailer(file: &[u8], trailer: Trailer) -> bool
    requires { 4 ≤ length file.now }
    ensures { result ≡ Layout.is_trailer file.now trailer }
{
    trailer.version != 0 && trailer.count <= layout::MOST_ENTRIES && points_back(file, trailer)
}

// The newest block of a good file, as the part of it that it is.
#[tactic(auto, using(crate::proofs::Laws::file_least, crate::proofs::Laws::file_room))]
pub fn newest(file: &[u8]) -> &[u8]
    requires { Layout.is_good (Layout.of_file file.now) ≡ true }
    ensures { result.now ≡ Layout.newest file.now }
{
    let trailer = trailer_in(file);
    back(file, usize::from(trailer.distance))
}

// The verdict of a file, on any bytes.
#[tactic(auto, using(crate::proofs::Laws::trailer_room), unfolding(model::specs::Layout::of_file, model::specs::Coded::fit_told, model::specs::Coded::refusal))]
pub fn of_file(file: &[u8]) -> Result<(), Refusal>
    ensures { fit_told result ≡ Layout.of_file file.now }
{
    if file.len() < layout::TRAILER_BYTES {
        return Err(Refusal::BrokenLayout);
    }
    let trailer = trailer_in(file);
    if layout::OWN_VERSION < trailer.version {
        return Err(Refusal::TooNew(trailer.version));
    }
    if !is_trailer(file, trailer) {
        return Err(Refusal::BrokenLayout);
    }
    of_block(back(file, usize::from(trailer.distance)))
}
