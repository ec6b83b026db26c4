// Snapshot: what is present is to be kept once its header is written.
ghost use Rattle.card.specs.Refusal.{told};
ghost use Rattle.frames.specs.Promise.{lent, numbered};
ghost use Rattle.pages.specs.Call.{snapshot};
ghost use Rattle.pages.specs.Promise.{answered, Kept};

use card::refusal::Refusal;
use frames::answer::Done;
use frames_change::snapshot;
use record::store::Store;

// By value, as document 01 names the form of the calls; what it comes to is done over a lent record.
pub fn snapshot(s: Store, card: &[u8], memory: &[u8]) -> Done<Result<(), Refusal>>
    ensures { Kept snapshot (lent s memory.now card.now) (answered (numbered (told result.answer))) (lent result.store memory.now card.now) }
{
    let mut store = s;
    let answer = snapshot::snapshot(&mut store, card, memory);
    Done { answer, store }
}
