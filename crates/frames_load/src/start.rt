// Start: the record that a card tells of.
ghost use Rattle.std.specs.Prelude.{◌≡◌, IfOk};
ghost use Rattle.card.specs.Question.{first_no};
ghost use Rattle.card.specs.Refusal.{told};
ghost use Rattle.record.specs.Meaning.{zero_store};
ghost use Rattle.recovery.specs.Questions.{start_asks};
ghost use Rattle.frames.specs.Promise.{start, lent, numbered, FrameKept};
ghost use Rattle.frames.specs.Parts.{Started, Startable};

use card::checkpoint::Checkpoint;
use card::refusal::Refusal;
use card_blocks::block;
use card_checkpoint::checkpoint;
use frames::answer::Done;
use record::store::{Geometry, Store};
use record_list::store;

// The record of a card that has passed, over the one of zeros: nothing is migrated, nothing has changed, and a flush
// is owed.
fn fill(s: &mut Store, card: &[u8], memory: &[u8], c: &Checkpoint)
    requires zeros { s.old ≡ zero_store }
    requires startable { Startable memory.now card.now c.now }
    ensures { Started memory.now card.now s.new }
{
    let h = &c.header;
    s.frames = memory.len() / 512;
    s.geometry = Geometry {
        blocks: card.len() / 512,
        area: h.area,
        count: h.count,
        ranges: h.ranges,
    };
    s.commit = h.commit;
    s.phase = 2;
    s.first = c.trailer.first;
    s.pages = c.trailer.pages;
    s.committed = c.directory;
}

// What the card tells.
#[tactic(auto, unfolding(card::specs::Question::first_no, recovery::specs::Questions::start_asks))]
fn recovered(card: &[u8], memory: &[u8]) -> Result<Checkpoint, Refusal>
    ensures told { told result ≡ first_no (start_asks memory.now card.now) }
    ensures startable { IfOk result (Startable memory.now card.now) }
{
    if !block::is_whole(4, 64, memory.len()) {
        return Err(Refusal::Memory);
    }
    checkpoint::read(card)
}

// Refused, it hands out the record of zeros. That is made where it is handed out, and filled there if the card passes,
// so that no record is made twice.
pub fn start(card: &[u8], memory: &[u8]) -> Done<Result<(), Refusal>>
    ensures { FrameKept (start memory.now) (lent zero_store memory.now card.now) (numbered (told result.answer)) (lent result.store memory.now card.now) }
{
    let mut done = Done {
        answer: Ok(()),
        store: store::zeros(),
    };
    match recovered(card, memory) {
        Ok(c) => fill(&mut done.store, card, memory, &c),
        Err(no) => done.answer = Err(no),
    }
    done
}
