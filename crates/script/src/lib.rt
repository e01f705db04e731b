// A line of a script: a word, and the numbers or the file's name behind it. What each function answers is said in specs/Script.antt.
#![tactic(auto)]

pub mod reading;
pub mod sizes;

ghost use Rattle.std.specs.Prelude.{◌≡◌, ◌<◌, ◌≤◌, ◌↔◌, IsTrue, length};
ghost use Rattle.script.specs.Sizes.{most_numbers, most_values};
ghost use Rattle.script.specs.Script as Script;
ghost use Rattle.script.specs.Script.Parsed.{parsed};

use reading::{ended, ends, numbers, skip, word_len};

// The seven numbers of `set`.
#[derive(Clone, Copy)]
pub struct Seven {
    pub a: u16,
    pub s: u16,
    pub p: u16,
    pub z: u16,
    pub ci: u16,
    pub lr: u16,
    pub w: u16,
}

// The five numbers of `write`.
#[derive(Clone, Copy)]
pub struct Five {
    pub file: u16,
    pub room: u16,
    pub used: u16,
    pub block: u16,
    pub length: u16,
}

// What a line asks for. The values of Put and Break, as many as their second number says, and those of Burst stand beside it, in the room that the caller
// lends: there is no heap. The name of Save stands in the line, between two places: an order with a reference in it would be no value that a contract equates.
#[derive(Clone, Copy)]
pub enum Order {
    Nothing,
    Fresh(u16, u16),
    Step,
    Interrupt(u16, u16),
    Burst(usize),
    Registers,
    Set(Seven),
    Judge,
    Put(u16, usize),
    Break(u16, usize),
    Length(u16),
    Settings(u16, u16),
    Write(Five),
    Save(usize, usize),
    Words(u16, u16),
    Changes,
    Show,
}

// The calls by their words, each with the numbers behind it; none where the word is no call's, or the numbers are too many or too few.
#[tactic(auto, unfolding(crate::specs::Script::call_order))]
fn call_order(word: &str, given: &[u16]) -> Option<Order>
    ensures { result ≡ Script.call_order word.now given.now }
{
    match (word, given) {
        ("fresh", &[line, divider]) => Some(Order::Fresh(line, divider)),
        ("step", []) => Some(Order::Step),
        // The class number may be left out.
        ("interrupt", &[number]) => Some(Order::Interrupt(number, 0)),
        ("interrupt", &[number, class]) => Some(Order::Interrupt(number, class)),
        ("burst", _) => Some(Order::Burst(given.len())),
        ("registers", []) => Some(Order::Registers),
        ("set", &[a, s, p, z, ci, lr, w]) => Some(Order::Set(Seven {
            a,
            s,
            p,
            z,
            ci,
            lr,
            w,
        })),
        ("judge", []) => Some(Order::Judge),
        ("settings", &[address, long]) => Some(Order::Settings(address, long)),
        ("write", &[file, room, used, block, length]) => {
            Some(Order::Write(Five {
                file,
                room,
                used,
                block,
                length,
            }))
        }
        _ => None,
    }
}

// The orders that are no calls.
#[tactic(auto, unfolding(crate::specs::Script::host_order))]
fn host_order(word: &str, given: &[u16]) -> Option<Order>
    ensures { result ≡ Script.host_order word.now given.now }
{
    match (word, given) {
        ("put", &[address, ref values @ ..]) if are_stored(values) => Some(Order::Put(
            address,
            values.len(),
        )),
        ("break", &[address, ref values @ ..]) if are_stored(values) => Some(Order::Break(
            address,
            values.len(),
        )),
        ("length", &[wanted]) => Some(Order::Length(wanted)),
        ("words", &[address, count]) => Some(Order::Words(address, count)),
        ("changes", []) => Some(Order::Changes),
        ("show", []) => Some(Order::Show),
        _ => None,
    }
}

// The order with a word and the numbers behind it.
#[tactic(auto, unfolding(crate::specs::Script::asked))]
fn asked(word: &str, given: &[u16]) -> Option<Order>
    ensures { result ≡ Script.asked word.now given.now }
{
    call_order(word, given).or(host_order(word, given))
}

// Whether an order may have so many values behind its address.
fn are_stored(values: &[u16]) -> bool
    ensures { IsTrue result ↔ ((0 < length values.now) × (length values.now ≤ most_values)) }
{
    (1..=sizes::MOST_VALUES).contains(&values.len())
}

// A file's name is one word behind the order's own.
#[tactic(auto, unfolding(crate::specs::Script::save))]
fn save(line: &[u8], behind: &[u8]) -> Option<Order>
    requires { length behind.now ≤ length line.now }
    ensures { result ≡ Script.save (length line.now) behind.now }
{
    let name = skip(behind);
    let long = word_len(name);
    if long == 0 || !ended(&name[long..]) {
        return None;
    }
    let begin = line.len() - name.len();
    Some(Order::Save(begin, begin + long))
}

// The order that the text, the end of the line, begins with; its numbers go to `given`.
#[tactic(auto, using(crate::proofs::Laws::ordered_none), unfolding(crate::specs::Script::ordered))]
fn ordered(line: &[u8], text: &[u8], given: &mut [u16]) -> Option<Order>
    requires { (length text.now ≤ length line.now) × (length given.old ≡ most_numbers) }
    ensures { parsed result given.new ≡ Script.ordered (length line.now) text.now given.old }
{
    let (word, behind) = text.split_at(word_len(text));
    let count = numbers(behind, given);
    match str::from_utf8(word) {
        Ok("save") => save(line, behind),
        Ok(word) => asked(word, &given[..count?]),
        Err(_) => None,
    }
}

// What a line asks for, if it is understood; its numbers go to `given`. Of Put and Break the values are those from given[1] on, of Burst from given[0] on.
#[tactic(auto, unfolding(crate::specs::Script::parse))]
pub fn parse(line: &[u8], given: &mut [u16]) -> Option<Order>
    requires { length given.old ≡ most_numbers }
    ensures { parsed result given.new ≡ Script.parse line.now given.old }
{
    if sizes::LONGEST_LINE < line.len() {
        return None;
    }
    let text = skip(line);
    if ends(text) {
        return Some(Order::Nothing);
    }
    ordered(line, text, given)
}
