// The parts of a line: blanks, words and numbers. A text is what is left of the line. What each function answers is said in specs/Script.antt.
ghost use Rattle.std.specs.Prelude.{◌≡◌, ◌≤◌, length, IfSome};
ghost use Rattle.script.specs.Sizes.{most_numbers};
ghost use Rattle.script.specs.Script as Script;
ghost use Rattle.script.specs.Script.Read.{read};

use crate::sizes;

// How many blanks the text begins with.
#[tactic(auto, unfolding(crate::specs::Script::blanks))]
fn blanks(text: &[u8]) -> usize
    ensures is { result ≡ Script.blanks text.now }
    ensures within { result ≤ length text.now }
{
    text.iter().take_while(|c| **c == b' ').count()
}

// What is left behind the blanks.
#[tactic(auto, unfolding(crate::specs::Script::skip))]
pub fn skip(text: &[u8]) -> &[u8]
    ensures is { result.now ≡ Script.skip text.now }
    ensures within { length result.now ≤ length text.now }
{
    &text[blanks(text)..]
}

// Whether a word ends before a character.
#[tactic(auto, unfolding(crate::specs::Script::parts))]
fn parts(character: u8) -> bool
    ensures { result ≡ Script.parts character }
{
    matches!(character, b' ' | b'#')
}

// How long the word is that the text begins with.
#[tactic(auto, unfolding(crate::specs::Script::word_len))]
pub fn word_len(text: &[u8]) -> usize
    ensures is { result ≡ Script.word_len text.now }
    ensures within { result ≤ length text.now }
{
    text.iter().take_while(|c| !parts(**c)).count()
}

// Whether the line, or what counts of it, ends here.
pub fn ends(text: &[u8]) -> bool
    ensures { result ≡ Script.ends text.now }
{
    matches!(text, [] | [b'#', ..])
}

// Whether only blanks, and a comment perhaps, are left.
#[tactic(auto, unfolding(crate::specs::Script::ended))]
pub fn ended(text: &[u8]) -> bool
    ensures { result ≡ Script.ended text.now }
{
    ends(skip(text))
}

// A number with one digit more; none where the character is no digit, or the number is over 65535.
#[tactic(auto, unfolding(crate::specs::Script::more))]
fn more(value: u16, character: u8) -> Option<u16>
    ensures { result ≡ Script.more value character }
{
    let digit = char::from(character).to_digit(10)?;
    u16::try_from(u32::from(value) * 10 + digit).ok()
}

// A word as a number: digits only, 0 to 65535.
#[tactic(auto, using(crate::proofs::Laws::decimals))]
pub fn whole_number(word: &[u8]) -> Option<u16>
    ensures { result ≡ Script.whole_number word.now }
{
    if word.is_empty() {
        return None;
    }
    let mut value = 0;
    for character in word {
        value = more(value, *character)?;
    }
    Some(value)
}

// How many digits the text begins with.
#[tactic(auto, unfolding(crate::specs::Script::digits_len))]
fn digits_len(text: &[u8]) -> usize
    ensures is { result ≡ Script.digits_len text.now }
    ensures within { result ≤ length text.now }
{
    text.iter().take_while(|c| c.is_ascii_digit()).count()
}

// The numbers that are left go to `given`. Answers how many there are; none where one is wrong, or one too many.
#[tactic(auto, using(crate::proofs::Laws::reads))]
pub fn numbers(text: &[u8], given: &mut [u16]) -> Option<usize>
    requires { length given.old ≡ most_numbers }
    ensures is { read result given.new ≡ Script.numbers most_numbers text.now given.old }
    ensures most { IfSome result (λ n. n ≤ most_numbers) }
{
    let mut left = text;
    for (count, place) in given.iter_mut().enumerate() {
        let from = skip(left);
        if ends(from) {
            return Some(count);
        }
        let (digits, behind) = from.split_at(digits_len(from));
        *place = whole_number(digits)?;
        left = behind;
    }
    ended(left).then_some(sizes::MOST_NUMBERS)
}
