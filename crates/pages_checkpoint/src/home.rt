// The frame at a home block, and how many committed entries are home or passed over, or to be copied: migration copies
// no page whose flag is set in the committed generation's view of its pot.
ghost use Rattle.std.specs.Prelude.{true, ◌≡◌, ◌+◌, ◌≤◌, ◌<◌};
ghost use Rattle.card.specs.Range.{ranges_of};
ghost use Rattle.frames.specs.Parts.{Readable, MigratingIs};
ghost use Rattle.pages.specs.Needed.{frame_in, frame_at};
ghost use Rattle.pages.specs.Promise.{OverIs, PassedIs, MovesIs};

use card::range::Address;
use card_places::range;
use frames_advance::advance;
use frames_load::{forecast, load};
use pages_read::named;
use record::store::{Geometry, Store};

// The page at block o of a range whose first block is start; a pot is none.
#[tactic(auto, using(pages::proofs::NeededLaws::in_pot, pages::proofs::NeededLaws::in_page))]
fn frame_in(start: usize, o: usize) -> Option<Address>
    requires start { start ≤ 65536 }
    requires o { o ≤ 65536 }
    ensures { result ≡ frame_in start o }
{
    let place = o % 103;
    if place == 0 {
        return None;
    }
    Some(Address {
        page: start + o,
        pot: start + 103 * (o / 103),
        entry: place - 1,
    })
}

// The page whose home block is f.
fn frame_at(g: &Geometry, f: usize) -> Option<Address>
    requires area { g.now.area ≤ 512 }
    requires few { g.now.count ≤ 8 }
    requires low { g.now.area < f }
    requires high { f ≤ 65536 }
    ensures { result ≡ frame_at (ranges_of g.now.ranges g.now.count) (1 + g.now.area) f }
{
    let mut start = 1 + g.area;
    for i in 0..g.count {
        let next = start + range::blocks(g.ranges[2 * i + 1] as usize);
        if f < next {
            return frame_in(start, f - start);
        }
        start = next;
    }
    None
}

// Does migration pass over a frame?
#[tactic(auto, using(pages::proofs::HomeLaws::home_searchable, pages::proofs::HomeLaws::pot_inside, pages::proofs::HomeLaws::entry_inside, pages::proofs::HomeLaws::over_none, pages::proofs::HomeLaws::over_some))]
fn is_over(s: &Store, card: &[u8], f: usize) -> bool
    requires readable { Readable s.now card.now }
    requires low { s.now.geometry.area < f }
    requires high { f < s.now.geometry.blocks }
    ensures { OverIs s.now card.now f result }
{
    match frame_at(&s.geometry, f) {
        Some(page) => named::is_zero(load::committed_of(s, card, page.pot), page.entry),
        None => false,
    }
}

// Where advance has come to migration: the entries that are home, and those behind them that are passed over.
#[tactic(auto, using(pages::proofs::HomeLaws::committed_few, pages::proofs::HomeLaws::passed_start, pages::proofs::HomeLaws::frame_home, pages::proofs::HomeLaws::passed_stop, pages::proofs::HomeLaws::passed_next))]
fn reached(s: &Store, card: &[u8]) -> usize
    requires readable { Readable s.now card.now }
    requires migrating { MigratingIs s.now true }
    ensures { PassedIs s.now card.now result }
{
    let d = &s.committed;
    for i in s.migrated..d.count {
        if !is_over(s, card, usize::from(d.frames[i])) {
            return i;
        }
    }
    d.count
}

// How many committed entries are home or passed over. Nothing is looked up before advance has come to migration.
#[tactic(auto, using(pages::proofs::HomeLaws::passed_none))]
pub fn passed(s: &Store, card: &[u8]) -> usize
    requires { Readable s.now card.now }
    ensures { PassedIs s.now card.now result }
{
    if advance::migrating(s) {
        return reached(s, card);
    }
    s.migrated
}

// The entries that are to be copied.
#[tactic(auto, using(pages::proofs::HomeLaws::committed_few, pages::proofs::HomeLaws::migrated_inside))]
fn left(s: &Store, card: &[u8]) -> usize
    requires { Readable s.now card.now }
    ensures moves { MovesIs s.now card.now result }
    ensures few { result ≤ 256 }
{
    let d = &s.committed;
    d.frames[s.migrated..d.count]
        .iter()
        .filter(|f| !is_over(s, card, usize::from(**f)))
        .count()
}

// How many committed entries the pending snapshot's header write waits for. With none pending nothing is looked up.
pub fn moves(s: &Store, card: &[u8]) -> usize
    requires { Readable s.now card.now }
    ensures moves { MovesIs s.now card.now result }
    ensures few { result ≤ 256 }
{
    if forecast::is_pending(s) {
        return left(s, card);
    }
    0
}
