// "Queue content is compared by messages in order, and not by page numbers."
ghost use Rattle.std.specs.Prelude.{◌≡◌, ◌<◌, length, eqb};
ghost use Rattle.model.specs.Differ as Differ;
ghost use Rattle.model.specs.Bytes as Model;

use model::{ControlPage, Memory, map, wide};
use queues::{Queue, Walk};
use words::{at, wrapped};

// Whether so many words, from `a` on in the first and from `b` on in the second, are the same.
fn same_words(first: &Memory, a: u16, second: &Memory, b: u16, count: u8) -> bool
    requires { (a < 8192) × (b < 8192) }
    ensures { result ≡ Differ.same_words (Model.words_from count first.now a) (Model.words_from count second.now b) }
{
    (0..count).all(|i| at(first, wrapped(a, wide(i))) == at(second, wrapped(b, wide(i))))
}

// Whether word 2 and the text of two messages are the same.
#[tactic(auto, using(crate::proofs::Laws::contents))]
fn same_content(first: &Memory, p: ControlPage, second: &Memory, q: ControlPage) -> bool
    ensures { result ≡ Differ.same_words (Model.content_of first.now p.0) (Model.content_of second.now q.0) }
{
    let size = p.word(first, map::SIZE);
    size == q.word(second, map::SIZE)
        && same_words(
            first,
            p.place(map::TEXT),
            second,
            q.place(map::TEXT),
            size % map::MARK,
        )
}

// Whether two messages are the same.
#[tactic(auto, using(crate::proofs::Laws::notes))]
fn same_message(first: &Memory, p: ControlPage, second: &Memory, q: ControlPage) -> bool
    ensures { result ≡ Differ.same_words (Model.message_of first.now p.0) (Model.message_of second.now q.0) }
{
    p.word(first, map::NOTE) == q.word(second, map::NOTE) && same_content(first, p, second, q)
}

// Whether no page is left.
#[tactic(auto, using(crate::proofs::Laws::over_is))]
fn over(mut pages: Walk) -> bool
    ensures { result ≡ eqb (length pages.entry) 0 }
{
    pages.next().is_none()
}

// Whether the queues with two headers hold the same messages, in their order.
#[tactic(auto, using(crate::proofs::Laws::mail_shorter))]
pub fn same_mail(first: &Memory, a: u16, second: &Memory, b: u16) -> bool
    requires { (a < 8192) × (b < 8192) }
    ensures { result ≡ Model.same_mail first.now a second.now b }
{
    let mut others = Queue::at(b).pages(second);
    for p in Queue::at(a).pages(first) {
        let Some(q) = others.next() else {
            return false;
        };
        if !same_message(first, p, second, q) {
            return false;
        }
    }
    over(others)
}
