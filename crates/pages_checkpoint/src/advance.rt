// Advance: one block write of a commit or of migration, or a flush. The frame layer is told how many committed
// entries are home or passed over.
ghost use Rattle.frames.specs.Promise.{lent, reported};
ghost use Rattle.pages.specs.Call.{advance};
ghost use Rattle.pages.specs.Promise.{answered, Kept};

use super::home;
use card::refusal::Refusal;
use frames::answer::{Advance, Done};
use frames_advance::advance;
use frames_load::question;
use record::store::Store;

// Over a lent record.
fn step(s: &mut Store, card: &mut [u8], memory: &[u8]) -> Result<Advance, Refusal>
    ensures { Kept advance (lent s.old memory.now card.old) (answered (reported result)) (lent s.new memory.now card.new) }
{
    question::common(s, memory.len(), card.len())?;
    let passed = home::passed(s, card);
    advance::advance(s, card, memory, passed)
}

// By value, as document 01 names the form of the calls; what it comes to is done over a lent record.
pub fn advance(s: Store, card: &mut [u8], memory: &[u8]) -> Done<Result<Advance, Refusal>>
    ensures { Kept advance (lent s memory.now card.old) (answered (reported result.answer)) (lent result.store memory.now card.new) }
{
    let mut store = s;
    let answer = step(&mut store, card, memory);
    Done { answer, store }
}
