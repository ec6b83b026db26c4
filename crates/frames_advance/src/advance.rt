// Advance: one block write or a flush. With a snapshot pending its waiting frames (P), directory (D), trailer (T),
// what is left of the committed generation's migration (M), a flush (F), header (H); with none pending only M. Just
// after a header write and after a start a flush comes before all else.
// What the questions have told of the lent record stands in each `requires`: behind a `&mut` it can be no invariant of
// a type, since a record changes field by field.
ghost use Rattle.std.specs.Prelude.{true, ◌≡◌, ◌≢◌, ◌≤◌, ◌<◌, length};
ghost use Rattle.card.specs.Question.{first_no};
ghost use Rattle.card.specs.Ring.{dir_blocks};
ghost use Rattle.frames.specs.Parts.{MigratingIs};
ghost use Rattle.record.specs.Holds.{holds_together};
ghost use Rattle.record.specs.Meaning.{waits};
ghost use Rattle.frames.specs.Promise.{common_asks, advance, passing, lent, written, reported, FrameKept};

use super::page_out;
use card::refusal::Refusal;
use frames::answer::Advance;
use frames_checkpoint::kind;
use record::store::Store;

// Has advance come to migration? Until then none is passed over.
pub fn migrating(s: &Store) -> bool
    requires { holds_together s.now ≡ true }
    ensures { MigratingIs s.now result }
{
    if s.phase == 2 {
        return false;
    }
    if s.pending.count == 0 {
        return true;
    }
    s.pending.taken <= s.pending.down && (s.pending.count + 63) / 64 < s.tail
}

// With directory and trailer of the pending snapshot down.
fn header_due(s: &mut Store, card: &mut [u8], memory: &[u8]) -> Advance
    requires asked { first_no (common_asks s.old (length memory.now) (length card.old)) ≡ 0 }
    requires none_waits { waits s.old.pending ≡ 0 }
    requires pending { 0 < s.old.pending.count }
    requires tail_down { dir_blocks s.old.pending.count < s.old.tail }
    requires calm { s.old.phase ≢ 2 }
    ensures { FrameKept (advance s.old.migrated) (lent s.old memory.now card.old) (written result) (lent s.new memory.now card.new) }
{
    if s.migrated < s.committed.count {
        return Advance::M(kind::migrate(s, card));
    }
    if s.phase == 0 {
        kind::flush_all(s);
        return Advance::F(0);
    }
    kind::header_block(s, card);
    Advance::H(0)
}

// With a snapshot pending of which no frame waits.
fn tail_due(s: &mut Store, card: &mut [u8], memory: &[u8]) -> Advance
    requires asked { first_no (common_asks s.old (length memory.now) (length card.old)) ≡ 0 }
    requires none_waits { waits s.old.pending ≡ 0 }
    requires pending { 0 < s.old.pending.count }
    requires calm { s.old.phase ≢ 2 }
    ensures { FrameKept (advance s.old.migrated) (lent s.old memory.now card.old) (written result) (lent s.new memory.now card.new) }
{
    let blocks = (s.pending.count + 63) / 64;
    if s.tail < blocks {
        return Advance::D(kind::directory_block(s, card));
    }
    if s.tail == blocks {
        return Advance::T(kind::trailer_block(s, card));
    }
    header_due(s, card, memory)
}

// With a snapshot pending, where no flush is owed.
fn commit_due(s: &mut Store, card: &mut [u8], memory: &[u8]) -> Advance
    requires asked { first_no (common_asks s.old (length memory.now) (length card.old)) ≡ 0 }
    requires pending { 0 < s.old.pending.count }
    requires calm { s.old.phase ≢ 2 }
    ensures { FrameKept (advance s.old.migrated) (lent s.old memory.now card.old) (written result) (lent s.new memory.now card.new) }
{
    if s.pending.down < s.pending.taken {
        return Advance::P(page_out::pending(s, card, memory));
    }
    tail_due(s, card, memory)
}

// With none pending, and an entry left to copy.
fn migration_due(s: &mut Store, card: &mut [u8], memory: &[u8]) -> Advance
    requires asked { first_no (common_asks s.old (length memory.now) (length card.old)) ≡ 0 }
    requires none_pending { s.old.pending.count ≡ 0 }
    requires left { s.old.migrated < s.old.committed.count }
    requires calm { s.old.phase ≢ 2 }
    ensures { FrameKept (advance s.old.migrated) (lent s.old memory.now card.old) (written result) (lent s.new memory.now card.new) }
{
    Advance::M(kind::migrate(s, card))
}

// The first `passed` committed entries are at home or passed over.
fn pass(s: &mut Store, passed: usize)
    requires together { holds_together s.old ≡ true }
    requires forward { s.old.migrated ≤ passed }
    requires inside { passed ≤ s.old.committed.count }
    requires calm { s.old.phase ≢ 2 }
    ensures passing { s.new ≡ passing passed s.old }
    ensures together { holds_together s.new ≡ true }
{
    s.migrated = passed;
}

// Where no flush is owed.
fn work_due(
    s: &mut Store,
    card: &mut [u8],
    memory: &[u8],
    passed: usize,
) -> Result<Advance, Refusal>
    requires asked { first_no (common_asks s.old (length memory.now) (length card.old)) ≡ 0 }
    requires forward { s.old.migrated ≤ passed }
    requires inside { passed ≤ s.old.committed.count }
    requires calm { s.old.phase ≢ 2 }
    ensures { FrameKept (advance passed) (lent s.old memory.now card.old) (reported result) (lent s.new memory.now card.new) }
{
    if s.pending.count == 0 && passed == s.committed.count {
        return Err(Refusal::NoneDue);
    }
    pass(s, passed);
    if s.pending.count == 0 {
        return Ok(migration_due(s, card, memory));
    }
    Ok(commit_due(s, card, memory))
}

// A flush that is owed comes before all else. For a layer above that has asked questions 1 to 3, and tells how many
// committed entries are home or passed over: none is passed over while a flush is owed.
pub fn advance(
    s: &mut Store,
    card: &mut [u8],
    memory: &[u8],
    passed: usize,
) -> Result<Advance, Refusal>
    requires asked { first_no (common_asks s.old (length memory.now) (length card.old)) ≡ 0 }
    requires forward { s.old.migrated ≤ passed }
    requires inside { passed ≤ s.old.committed.count }
    requires none_over { s.old.phase ≡ 2 → passed ≡ s.old.migrated }
    ensures { FrameKept (advance passed) (lent s.old memory.now card.old) (reported result) (lent s.new memory.now card.new) }
{
    if s.phase == 2 {
        kind::flush_owed(s);
        return Ok(Advance::F(0));
    }
    work_due(s, card, memory, passed)
}
