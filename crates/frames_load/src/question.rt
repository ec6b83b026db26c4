// Questions 1 to 3, which every call after start is asked.
ghost use Rattle.std.specs.Prelude.{◌≡◌, ◌&&◌, ◌*◌, eqb};
ghost use Rattle.card.specs.Block.{whole};
ghost use Rattle.card.specs.Question.{first_no};
ghost use Rattle.card.specs.Refusal.{told};
ghost use Rattle.frames.specs.Promise.{common_asks};

use card::refusal::Refusal;
use card_blocks::block;
use record::store::Store;
use record_hold::hold;

// Is a length that of whole blocks, low to high of them, and as many as the record says?
#[tactic(auto, using(frames::proofs::ReadyLaws::whole_said))]
fn is_said(low: usize, high: usize, len: usize, said: usize) -> bool
    ensures { result ≡ whole low high len && eqb len (512 * said) }
{
    block::is_whole(low, high, len) && len / 512 == said
}

#[tactic(auto, unfolding(card::specs::Question::first_no, recovery::specs::Questions::held_asks))]
pub fn common(s: &Store, memory: usize, card: usize) -> Result<(), Refusal>
    ensures { told result ≡ first_no (common_asks s.now memory card) }
{
    if !is_said(4, 64, memory, s.frames) {
        return Err(Refusal::Memory);
    }
    if !hold::holds_together(s) {
        return Err(Refusal::Record);
    }
    if !is_said(11, 65536, card, s.geometry.blocks) {
        return Err(Refusal::Card);
    }
    Ok(())
}
