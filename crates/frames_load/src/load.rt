// The newest bytes of a frame: of current, pending, committed, home. What question 2 has told of the record stands in
// each `requires`: any bytes may be a record, so that it can be no invariant of its type.
ghost use Rattle.std.specs.Prelude.{◌≡◌, true, ◌+◌, ◌-◌, ◌≤◌, ◌<◌, length};
ghost use Rattle.card.specs.Question.{first_no};
ghost use Rattle.record.specs.Holds.{holds_together};
ghost use Rattle.frames.specs.Promise.{common_asks, lent, Loads};
ghost use Rattle.frames.specs.Parts.{Located, Readable, PartsHeld, PartsLent, CommittedBlock, PartsShow, CommittedShows};
ghost use Rattle.frames.specs.Parts.{committed_bytes, pending_bytes, newest_bytes, placed_at};
ghost use Rattle.frames.specs.declared.answer.Place.TheVariants.{Card};

use card::directory::Directory;
use card_blocks::block;
use card_blocks::ring::Ring;
use frames::answer::Place;
use record::store::Store;
use record_hold::place;
use record_list::list;

// The block that a committed generation has of a frame, in the area or home. No more of a record bears on it.
fn committed_block(ring: Ring, d: &Directory, frame: u16) -> usize
    requires { PartsHeld ring.area ring.first d.now }
    ensures { CommittedBlock ring.area ring.first d.now frame result }
{
    match list::find(&d.frames[..d.count], frame) {
        Ok(i) => ring.at(usize::from(d.places[i])),
        Err(_) => usize::from(frame),
    }
}

// The same of a record, as pending and current lie over it.
fn in_committed(s: &Store, frame: u16) -> usize
    requires together { holds_together s.now ≡ true }
    requires on_card { frame < s.now.geometry.blocks }
    ensures { Located s.now (committed_bytes s.now frame) (Card result) }
{
    committed_block(place::committed_ring(s), &s.committed, frame)
}

// Where a place's bytes are, in a generation of which `down` places are down and before whose waiting frames `ahead`
// others wait.
fn at_place(s: &Store, ring: Ring, down: usize, ahead: usize, place: usize) -> Place
    requires head { s.now.head < s.now.frames }
    requires inside { place ≤ ring.area }
    requires few { s.now.frames ≤ 64 }
    requires seated { down ≤ place → ahead + (place - down) ≤ s.now.frames }
    ensures { result ≡ placed_at s.now ring.area ring.first down ahead place }
{
    if place < down {
        return Place::Card(ring.at(place));
    }
    Place::Memory(place::seat(s, ahead + (place - down)))
}

fn in_pending(s: &Store, frame: u16) -> Place
    requires together { holds_together s.now ≡ true }
    requires on_card { frame < s.now.geometry.blocks }
    requires few { s.now.frames ≤ 64 }
    ensures { Located s.now (pending_bytes s.now frame) result }
{
    let g = &s.pending;
    match list::find(&g.frames[..g.count], frame) {
        Ok(i) => at_place(
            s,
            place::pending_ring(s),
            g.down,
            0,
            usize::from(g.places[i]),
        ),
        Err(_) => Place::Card(in_committed(s, frame)),
    }
}

// Where the newest bytes of a frame are.
fn newest(s: &Store, frame: u16) -> Place
    requires together { holds_together s.now ≡ true }
    requires on_card { frame < s.now.geometry.blocks }
    requires few { s.now.frames ≤ 64 }
    ensures { Located s.now (newest_bytes s.now frame) result }
{
    let g = &s.current;
    match list::find(&g.frames[..g.count], frame) {
        Ok(i) => {
            let ahead = s.pending.taken - s.pending.down;
            at_place(
                s,
                place::current_ring(s),
                g.down,
                ahead,
                usize::from(g.places[i]),
            )
        }
        Err(_) => in_pending(s, frame),
    }
}

// The newest bytes of a frame, as a part of memory or of the card.
pub fn load<'a>(s: &Store, card: &'a [u8], memory: &'a [u8], frame: usize) -> &'a [u8; 512]
    requires asked { first_no (common_asks s.now (length memory.now) (length card.now)) ≡ 0 }
    requires on_card { frame < s.now.geometry.blocks }
    ensures { Loads (lent s.now memory.now card.now) frame result.now }
{
    match newest(s, frame as u16) {
        Place::Memory(n) => block::at(memory, n),
        Place::Card(n) => block::at(card, n),
    }
}

// The bytes that a committed generation shows of a frame, as a part of the card; by the parts of a record that tell it.
pub fn committed<'a>(ring: Ring, d: &Directory, card: &'a [u8], frame: usize) -> &'a [u8; 512]
    requires { PartsLent ring.area ring.first d.now card.now frame }
    ensures { PartsShow ring.area ring.first d.now card.now frame result.now }
{
    block::at(card, committed_block(ring, d, frame as u16))
}

// The same of a record.
pub fn committed_of<'a>(s: &Store, card: &'a [u8], frame: usize) -> &'a [u8; 512]
    requires readable { Readable s.now card.now }
    requires on_card { frame < s.now.geometry.blocks }
    ensures { CommittedShows s.now card.now frame result.now }
{
    committed(place::committed_ring(s), &s.committed, card, frame)
}
