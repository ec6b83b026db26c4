// The writes that advance makes after the waiting frames: directory, trailer, migration and header.
ghost use Rattle.std.specs.Prelude.{◌≡◌, true, ◌≢◌, ◌≤◌, ◌<◌};
ghost use Rattle.card.specs.Ring.{dir_blocks};
ghost use Rattle.record.specs.Holds.{holds_together};
ghost use Rattle.record.specs.Meaning.{waits};
ghost use Rattle.recovery.specs.Step.{directory, trailer, migration, header, flush, after_kind};
ghost use Rattle.frames.specs.Parts.{KindDone, StepDone, Writable};

use card::directory::Directory;
use card::trailer::Trailer;
use card_blocks::block;
use card_checkpoint::{directory, header, trailer};
use record::store::Store;
use record_hold::place;

// D: the next block of the pending directory.
pub fn directory_block(s: &mut Store, card: &mut [u8]) -> usize
    requires writable { Writable s.old card.old }
    requires none_waits { waits s.old.pending ≡ 0 }
    requires left { s.old.tail < dir_blocks s.old.pending.count }
    ensures { KindDone directory s.old card.old result s.new card.new }
{
    let ring = place::pending_ring(s);
    let g = &s.pending;
    let bytes = directory::block(ring, &g.frames[..g.count], &g.places[..g.count], s.tail);
    let to = ring.at(g.taken + s.tail);
    block::put(card, to, &bytes);
    s.tail += 1;
    to
}

// T: the pending trailer.
pub fn trailer_block(s: &mut Store, card: &mut [u8]) -> usize
    requires writable { Writable s.old card.old }
    requires none_waits { waits s.old.pending ≡ 0 }
    requires pending { 0 < s.old.pending.count }
    requires last { s.old.tail ≡ dir_blocks s.old.pending.count }
    ensures { KindDone trailer s.old card.old result s.new card.new }
{
    let ring = place::pending_ring(s);
    let t = Trailer {
        commit: s.commit + 1,
        first: ring.first,
        pages: s.pending.taken,
        entries: s.pending.count,
    };
    let to = ring.at(s.pending.taken + s.tail);
    block::put(card, to, &trailer::block(&t));
    s.tail += 1;
    to
}

// M: the next committed entry is copied home.
pub fn migrate(s: &mut Store, card: &mut [u8]) -> usize
    requires writable { Writable s.old card.old }
    requires left { s.old.migrated < s.old.committed.count }
    ensures { KindDone migration s.old card.old result s.new card.new }
{
    let d = &s.committed;
    let home = usize::from(d.frames[s.migrated]);
    let from = place::committed_ring(s).at(usize::from(d.places[s.migrated]));
    block::copy(card, from, home);
    s.migrated += 1;
    home
}

// The pending generation is the committed one, its directory as it stands, and a flush is owed.
fn commit(s: &mut Store)
    requires together { holds_together s.old ≡ true }
    requires none_waits { waits s.old.pending ≡ 0 }
    requires pending { 0 < s.old.pending.count }
    ensures { StepDone (after_kind header) s.old s.new }
{
    s.first = place::pending_ring(s).first;
    s.commit += 1;
    s.pages = s.pending.taken;
    s.committed = Directory {
        count: s.pending.count,
        frames: s.pending.frames,
        places: s.pending.places,
    };
    s.migrated = 0;
    s.pending.count = 0;
    s.pending.taken = 0;
    s.pending.down = 0;
    s.tail = 0;
    s.phase = 2;
}

// F, the one that is owed after a header write or a start.
pub fn flush_owed(s: &mut Store)
    requires together { holds_together s.old ≡ true }
    requires owed { s.old.phase ≡ 2 }
    ensures { StepDone (after_kind flush) s.old s.new }
{
    s.phase = 0;
}

// F, the one before a header write: all that it is to cover is down.
pub fn flush_all(s: &mut Store)
    requires together { holds_together s.old ≡ true }
    requires writing { s.old.phase ≡ 0 }
    requires pending { 0 < s.old.pending.count }
    requires tail_down { dir_blocks s.old.pending.count < s.old.tail }
    requires all_home { s.old.committed.count ≤ s.old.migrated }
    ensures { StepDone (after_kind flush) s.old s.new }
{
    s.phase = 1;
}

// H: the header, in block 0, names the new commit number and its trailer.
pub fn header_block(s: &mut Store, card: &mut [u8])
    requires writable { Writable s.old card.old }
    requires none_waits { waits s.old.pending ≡ 0 }
    requires pending { 0 < s.old.pending.count }
    ensures { KindDone header s.old card.old 0 s.new card.new }
{
    let end = s.pending.taken + (s.pending.count + 63) / 64;
    let last = place::pending_ring(s).at(end);
    let g = &s.geometry;
    let bytes = header::block(s.commit + 1, last, g.area, &g.ranges[..2 * g.count]);
    block::put(card, 0, &bytes);
    commit(s);
}
