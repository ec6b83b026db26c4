// Start: the record that a card tells of. Refused, it hands out the record of zeros.
ghost use Rattle.card.specs.Refusal.{told};
ghost use Rattle.frames.specs.Promise.{lent, numbered};
ghost use Rattle.pages.specs.Call.{start};
ghost use Rattle.pages.specs.Promise.{answered, Kept};
ghost use Rattle.record.specs.Meaning.{zero_store};

use card::refusal::Refusal;
use frames::answer::Done;
use frames_load::start;

pub fn start(card: &[u8], memory: &[u8]) -> Done<Result<(), Refusal>>
    ensures { Kept (start memory.now) (lent zero_store memory.now card.now) (answered (numbered (told result.answer)))
        (lent result.store memory.now card.now) }
{
    start::start(card, memory)
}
