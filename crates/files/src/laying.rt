// Bytes laid into a buffer: a part of a block or of a memory, and the name of a new file.
ghost use Rattle.std.specs.Prelude.{◌≡◌, ◌++◌, ◌≤◌, ◌+◌, length, take, drop};
ghost use Rattle.files.specs.Files.{new_bytes, new_name};

use crate::sizes;

// The bytes go to a place and the ones behind it.
pub fn lay(buffer: &mut [u8], at: usize, laid: &[u8])
    requires { at + length laid.now ≤ length buffer.old }
    ensures { buffer.new
        ≡ take at buffer.old ++ laid.now ++ drop (at + length laid.now) buffer.old }
{
    let end = at + laid.len();
    buffer[at..end].copy_from_slice(laid);
}

// A file's name with `.new` behind it. Answers how long it is.
#[tactic(auto, using(crate::proofs::Laws::new_name_lem, crate::proofs::Laws::new_long))]
pub fn lay_new_name(new: &mut [u8], name: &[u8]) -> usize
    requires { length name.now + new_bytes ≤ length new.old }
    ensures { (result ≤ length new.new) × (result ≡ length (take result new.new)) × (take result new.new ≡ new_name name.now) }
{
    let end = name.len();
    lay(new, 0, name);
    lay(new, end, b".new");
    end + sizes::NEW_BYTES
}
