// Page-out: the oldest waiting frame goes to the card, pending before current.
ghost use Rattle.std.specs.Prelude.{◌≡◌, ◌≢◌, ◌≤◌, ◌<◌, length};
ghost use Rattle.card.specs.Question.{first_no};
ghost use Rattle.record.specs.Meaning.{state_of};
ghost use Rattle.recovery.specs.Step.{out_write, out_of, pending_to, current_to};
ghost use Rattle.frames.specs.Promise.{common_asks, page_out, lent, reported, FrameKept};
ghost use Rattle.frames.specs.Parts.{WriteDone};

use card::refusal::Refusal;
use card_blocks::block;
use frames::answer::Advance;
use frames_load::question;
use record::store::Store;
use record_hold::place;

// The oldest frame that waits for the pending snapshot.
pub fn pending(s: &mut Store, card: &mut [u8], memory: &[u8]) -> usize
    requires asked { first_no (common_asks s.old (length memory.now) (length card.old)) ≡ 0 }
    requires waits { s.old.pending.down < s.old.pending.taken }
    ensures { WriteDone (out_write s.old.geometry.area (state_of s.old memory.now).pending) (pending_to (out_of (state_of s.old memory.now).pending) s.old.tail (state_of s.old memory.now))
        memory.now card.old result s.new card.new }
{
    let to = place::pending_ring(s).at(s.pending.down);
    block::put(card, to, block::at(memory, s.head));
    s.head = place::seat(s, 1);
    s.pending.down += 1;
    to
}

// The oldest frame of the current generation, where none waits for a snapshot. It differs from `pending` in the
// generation, a field of the record: one function of both would borrow the record and its field at once.
fn current(s: &mut Store, card: &mut [u8], memory: &[u8]) -> usize
    requires asked { first_no (common_asks s.old (length memory.now) (length card.old)) ≡ 0 }
    requires none_pending { s.old.pending.taken ≤ s.old.pending.down }
    requires waits { s.old.current.down < s.old.current.taken }
    ensures { WriteDone (out_write s.old.geometry.area (state_of s.old memory.now).current) (current_to (out_of (state_of s.old memory.now).current) (state_of s.old memory.now))
        memory.now card.old result s.new card.new }
{
    let to = place::current_ring(s).at(s.current.down);
    block::put(card, to, block::at(memory, s.head));
    s.head = place::seat(s, 1);
    s.current.down += 1;
    to
}

// Where no flush is owed.
fn out_due(s: &mut Store, card: &mut [u8], memory: &[u8]) -> Result<Advance, Refusal>
    requires asked { first_no (common_asks s.old (length memory.now) (length card.old)) ≡ 0 }
    requires calm { s.old.phase ≢ 2 }
    ensures { FrameKept page_out (lent s.old memory.now card.old) (reported result) (lent s.new memory.now card.new) }
{
    if s.pending.down < s.pending.taken {
        return Ok(Advance::P(pending(s, card, memory)));
    }
    if s.current.taken <= s.current.down {
        return Err(Refusal::NoneWaits);
    }
    Ok(Advance::P(current(s, card, memory)))
}

// Reports the block as an advance of kind P does.
pub fn page_out(s: &mut Store, card: &mut [u8], memory: &[u8]) -> Result<Advance, Refusal>
    ensures { FrameKept page_out (lent s.old memory.now card.old) (reported result) (lent s.new memory.now card.new) }
{
    question::common(s, memory.len(), card.len())?;
    if s.phase == 2 {
        return Err(Refusal::FlushOwed);
    }
    out_due(s, card, memory)
}
