// A fresh start from settings: "fresh followed by creation of the entries in order, processor 1's LR staying".
#![tactic(auto)]

ghost use Rattle.std.specs.Prelude.{◌≡◌, true, ◌<◌};
ghost use Rattle.model.specs.Layout as Layout;
ghost use Rattle.model.specs.Bytes as Model;

use creating::Newcomer;
use fresh::start;
use model::{ControlPage, Entry, Memory, Name, layout};
use pages::take_page;
use processors::running;
use settings::entries::Entries;

// What CRP does when it is done, but for its LR. Page 0 stands for no page, as in the definition; a fresh start has one for each entry.
fn make(m: &mut Memory, e: Entry)
    requires { (e.name < 16) × (e.priority < 16) }
    ensures { m.new ≡ Model.made m.old e }
{
    let newcomer = Newcomer {
        name: Name(e.name),
        priority: e.priority,
        w: e.w,
        address: e.address,
    };
    let runner = running(m);
    // The definition makes it of page 0 where none is left, which no fresh memory shows.
    let page = take_page(m, runner).unwrap_or(ControlPage(0));
    newcomer.create(m, page);
}

// The fresh start with the settings of a good block.
#[tactic(auto, using(crate::proofs::Laws::settling))]
pub fn settle(m: &mut Memory, block: &[u8])
    requires { Layout.is_good (Layout.of_block block.now) ≡ true }
    ensures { m.new ≡ Model.settled m.old block.now }
{
    start(m, block[layout::LINE], block[layout::DIVIDER]);
    for entry in Entries::of(block) {
        make(m, entry);
    }
}
