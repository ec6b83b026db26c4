// Snapshot: the current generation becomes the pending one.
ghost use Rattle.std.specs.Prelude.{◌≡◌, true, ◌<◌};
ghost use Rattle.card.specs.Refusal.{told};
ghost use Rattle.record.specs.Holds.{holds_together};
ghost use Rattle.recovery.specs.Step.{after_snapshot};
ghost use Rattle.frames.specs.Promise.{snapshot, lent, numbered, FrameKept};
ghost use Rattle.frames.specs.Parts.{StepDone};

use card::refusal::Refusal;
use frames_load::question;
use record::store::Store;

// The current generation is without a change: what its arrays hold beyond the count tells nothing.
fn mark(s: &mut Store)
    requires together { holds_together s.old ≡ true }
    requires none_pending { s.old.pending.count ≡ 0 }
    requires changed { 0 < s.old.current.count }
    requires commit_low { s.old.commit < 4294967295 }
    ensures { StepDone after_snapshot s.old s.new }
{
    s.tail = 0;
    s.pending = s.current;
    s.current.count = 0;
    s.current.taken = 0;
    s.current.down = 0;
}

pub fn snapshot(s: &mut Store, card: &[u8], memory: &[u8]) -> Result<(), Refusal>
    ensures { FrameKept snapshot (lent s.old memory.now card.now) (numbered (told result)) (lent s.new memory.now card.now) }
{
    question::common(s, memory.len(), card.len())?;
    if s.pending.count != 0 {
        return Err(Refusal::Pending);
    }
    if s.current.count == 0 {
        return Err(Refusal::Unchanged);
    }
    if s.commit == u32::MAX {
        return Err(Refusal::LastCommit);
    }
    mark(s);
    Ok(())
}
