// Say what is broken: the class and the lowest address that it tells. Asked class by class only where the judge refuses.
#![tactic(auto)]

mod counters;
mod lowest;
mod met;
mod places;
mod records;
mod semaphores;
mod tables;
mod uses;
mod waits;
mod walks;

ghost use Rattle.std.specs.Prelude.{◌≡◌};
ghost use Rattle.model.specs.Coded.{broken_told};
ghost use Rattle.model.specs.Bytes as Model;

use crate::counters::counters;
use crate::records::records;
use crate::tables::tables;
use crate::uses::pages;
use crate::waits::waits;
use judge::judged;
use model::{Broken, Class, Memory};

// "The classes are tried in that order".
#[tactic(auto, using(crate::proofs::InOrder::findings), unfolding(model::specs::Classes::told_of, model::specs::Classes::classes, model::specs::Coded::broken_told, model::specs::Coded::class_number))]
fn told(m: &Memory) -> Result<(), Broken>
    ensures { broken_told result ≡ Model.told_of m.now }
{
    if let Some(address) = pages(m) {
        return Err(Broken {
            class: Class::Pages,
            address,
        });
    }
    if let Some(address) = waits(m) {
        return Err(Broken {
            class: Class::Waits,
            address,
        });
    }
    if let Some(address) = records(m) {
        return Err(Broken {
            class: Class::Records,
            address,
        });
    }
    if let Some(address) = tables(m) {
        return Err(Broken {
            class: Class::Tables,
            address,
        });
    }
    if let Some(address) = counters(m) {
        return Err(Broken {
            class: Class::Counters,
            address,
        });
    }
    Ok(())
}

// What is found of a memory.
#[tactic(auto, using(crate::proofs::InOrder::accepted_is), unfolding(model::specs::Coded::broken_told))]
pub fn finding(m: &Memory) -> Result<(), Broken>
    ensures { broken_told result ≡ Model.told_of m.now }
{
    if judged(m) {
        return Ok(());
    }
    told(m)
}
