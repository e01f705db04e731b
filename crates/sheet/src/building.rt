// A block from the words of a command line, one word after the other: `VERSION LINE DIVIDER [SITE [LABEL]] NAME PRIORITY W ADDRESS ..`. The bytes that are
// there already say what the next word is. What each function answers is said in specs/Words.antt.
ghost use Rattle.std.specs.Prelude.{◌≡◌, ◌<◌, ◌≤◌, ◌+◌, ◌++◌, [], ◌∷◌, length, IfOk, OnErr};
ghost use Rattle.arrayvec.specs.ArrayVec.{array_vec_len};
ghost use Rattle.model.specs.Map.{a_word};
ghost use Rattle.model.specs.Layout as Layout;
ghost use Rattle.model.specs.Layout.{label_bytes};
ghost use Rattle.script.specs.Sizes.{largest_number};
ghost use Rattle.sheet.specs.Words as Words;
ghost use Rattle.sheet.specs.Words.Built.{built};

use crate::sizes;
use crate::sizes::BLOCK_ROOM;
use arrayvec::ArrayVec;
use model::layout;
use script::reading::whole_number;
use settings::block::head_bytes;

// The bytes of a block.
pub type Block = ArrayVec<u8, BLOCK_ROOM>;

// The words build no block.
#[derive(Clone, Copy)]
pub struct NoBlock;

// What the next word is: the version, a byte, the label, an address.
#[derive(Clone, Copy)]
pub enum Due {
    Version,
    Byte,
    Label,
    Address,
}

// A word as a number.
#[tactic(auto, using(crate::proofs::Laws::numbering))]
fn number_of(word: &[u8]) -> Result<u16, NoBlock>
    ensures ok { IfOk result (λ r. r ≡ Words.number_of word.now) }
    ensures err { OnErr result (largest_number < Words.number_of word.now) }
{
    whole_number(word).ok_or(NoBlock)
}

fn byte_of(word: &[u8]) -> Result<u8, NoBlock>
    ensures ok { IfOk result (λ r. (r ≡ Words.number_of word.now) × (r ≤ a_word)) }
    ensures err { OnErr result (a_word < Words.number_of word.now) }
{
    u8::try_from(number_of(word)?).map_err(|_| NoBlock)
}

// How long the head of a block is; that of version 0, which the call refuses, is the shortest.
#[tactic(auto, using(crate::proofs::Laws::numbering))]
fn head_of(version: u8) -> usize
    ensures { (result ≡ Words.head_of version) × (4 ≤ result) × (result ≤ 17) }
{
    if version == 0 {
        return layout::FIRST_HEAD;
    }
    head_bytes(version)
}

#[tactic(auto, using(crate::proofs::Laws::tests), unfolding(crate::specs::Words::due_in_head))]
fn due_in_head(at: usize) -> Due
    ensures { result ≡ Words.due_in_head at }
{
    if at == layout::LABEL {
        return Due::Label;
    }
    Due::Byte
}

#[tactic(auto, using(crate::proofs::Laws::tests), unfolding(crate::specs::Words::due_behind))]
fn due_behind(at: usize) -> Option<Due>
    ensures { result ≡ Words.due_behind at }
{
    if sizes::MOST_BEHIND <= at {
        return None;
    }
    if at % layout::ENTRY_BYTES == sizes::ADDRESS_PLACE {
        return Some(Due::Address);
    }
    Some(Due::Byte)
}

// What the word is with which a block goes on, of which there are so many bytes; nothing where there is room for none.
#[tactic(auto, using(crate::proofs::Laws::numbering))]
fn due_at(version: u8, at: usize) -> Option<Due>
    ensures { result ≡ Words.due_at version at }
{
    if at == 0 {
        return Some(Due::Version);
    }
    let head = head_of(version);
    if at < head {
        return Some(due_in_head(at));
    }
    due_behind(at - head)
}

#[tactic(auto, using(crate::proofs::Laws::bytes))]
fn take_byte(block: &mut Block, word: &[u8]) -> Result<(), NoBlock>
    requires { array_vec_len block.old < Words.block_room }
    ensures { Words.stands result block.new.items ≡ Words.byte_taken block.old.items word.now }
{
    block.push(byte_of(word)?);
    Ok(())
}

// The number of entries stands behind the version: it is known at last.
#[tactic(auto, using(crate::proofs::Laws::bytes))]
fn take_version(block: &mut Block, word: &[u8]) -> Result<(), NoBlock>
    requires { block.old.items ≡ [] }
    ensures { Words.stands result block.new.items ≡ Words.version_taken word.now }
{
    block.push(byte_of(word)?);
    block.push(0);
    Ok(())
}

#[tactic(auto, using(crate::proofs::Laws::bytes))]
fn take_address(block: &mut Block, word: &[u8]) -> Result<(), NoBlock>
    requires { array_vec_len block.old + 2 ≤ Words.block_room }
    ensures { Words.stands result block.new.items ≡ Words.address_taken block.old.items word.now }
{
    let [high, low] = number_of(word)?.to_be_bytes();
    block.push(high);
    block.push(low);
    Ok(())
}

// The word for a label of no letters.
const NO_LETTERS: &[u8] = b"-";

// How many of the word's bytes are the label.
#[tactic(auto, using(crate::proofs::Laws::laying))]
fn letters(word: &[u8]) -> usize
    ensures { (result ≡ Words.letters word.now) × (result ≤ length word.now) }
{
    if word == NO_LETTERS {
        return 0;
    }
    word.len()
}

// The label that a word is: its letters, and zeros to the end.
#[tactic(auto, using(crate::proofs::Laws::laying))]
fn label_of(word: &[u8]) -> [u8; layout::LABEL_BYTES]
    requires { length word.now ≤ label_bytes }
    ensures { result ≡ Words.labelled word.now }
{
    let end = letters(word);
    let mut label = [0u8; layout::LABEL_BYTES];
    label[..end].copy_from_slice(&word[..end]);
    label
}

#[tactic(auto, using(crate::proofs::Laws::laying))]
fn take_label(block: &mut Block, word: &[u8]) -> Result<(), NoBlock>
    requires { array_vec_len block.old + label_bytes ≤ Words.block_room }
    ensures { Words.stands result block.new.items ≡ Words.label_taken block.old.items word.now }
{
    if layout::LABEL_BYTES < word.len() {
        return Err(NoBlock);
    }
    let _fits = block.try_extend_from_slice(&label_of(word));
    Ok(())
}

fn version_of(block: &Block) -> u8
    ensures { result ≡ Layout.version_of block.now.items }
{
    match block.as_slice() {
        [version, ..] => *version,
        [] => 0,
    }
}

// The next word.
#[tactic(auto, using(crate::proofs::Laws::nexts))]
pub fn take_word(block: &mut Block, word: &[u8]) -> Result<(), NoBlock>
    ensures { Words.stands result block.new.items ≡ Words.next (built block.old.items) word.now }
{
    match due_at(version_of(block), block.len()) {
        Some(Due::Version) => take_version(block, word),
        Some(Due::Byte) => take_byte(block, word),
        Some(Due::Label) => take_label(block, word),
        Some(Due::Address) => take_address(block, word),
        None => Err(NoBlock),
    }
}

// So many bytes behind the head are whole groups; their number goes to its place.
#[tactic(auto, using(crate::proofs::Laws::endings))]
fn count_groups(block: &mut Block, behind: usize) -> Result<(), NoBlock>
    requires { 2 ≤ array_vec_len block.old }
    ensures { Words.stands result block.new.items ≡ Words.counted block.old.items behind }
{
    let Ok(count) = u8::try_from(behind / layout::ENTRY_BYTES) else {
        return Err(NoBlock);
    };
    if behind % layout::ENTRY_BYTES == 0 {
        block.as_mut_slice()[layout::COUNT] = count;
        return Ok(());
    }
    Err(NoBlock)
}

// No word is left: the block, if it is whole.
#[tactic(auto, using(crate::proofs::Laws::endings))]
pub fn finish(block: &mut Block) -> Result<(), NoBlock>
    ensures { Words.stands result block.new.items ≡ Words.finished (built block.old.items) }
{
    let head = head_of(version_of(block));
    if block.len() < head {
        return Err(NoBlock);
    }
    count_groups(block, block.len() - head)
}
