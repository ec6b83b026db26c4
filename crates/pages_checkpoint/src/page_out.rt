// Page-out: the oldest waiting frame goes to the card, and its block is reported.
ghost use Rattle.frames.specs.Promise.{lent, reported};
ghost use Rattle.pages.specs.Call.{page_out};
ghost use Rattle.pages.specs.Promise.{answered, Kept};

use card::refusal::Refusal;
use frames::answer::{Advance, Done};
use frames_advance::page_out;
use record::store::Store;

// By value, as document 01 names the form of the calls; what it comes to is done over a lent record.
pub fn page_out(s: Store, card: &mut [u8], memory: &[u8]) -> Done<Result<Advance, Refusal>>
    ensures { Kept page_out (lent s memory.now card.old) (answered (reported result.answer)) (lent result.store memory.now card.new) }
{
    let mut store = s;
    let answer = page_out::page_out(&mut store, card, memory);
    Done { answer, store }
}
