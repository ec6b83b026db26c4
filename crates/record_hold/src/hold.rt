// Question 2: does the record hold together? Counts and sizes are asked before any directory, so that none is read
// beyond its arrays. The fields may be any numbers, so that what is known of them stands in each `requires`.
ghost use Rattle.std.specs.Prelude.{◌≡◌, true, ◌&&◌, ◌+◌, ◌≤◌, ◌<◌, leb};
ghost use Rattle.card.specs.Ring.{generation_size};
ghost use Rattle.record.specs.Holds.{geometry_holds, committed_holds, pending_holds, current_holds, sizes_hold};
ghost use Rattle.record.specs.Holds.{tail_for, tail_holds, flushed_holds, phase_holds, order_holds, memory_holds};
ghost use Rattle.record.specs.Holds.{counts_hold, spans_hold, directory_holds, changes_hold, holds_together};
ghost use Rattle.record.specs.Lists.{all_rising, all_within};
ghost use Rattle.record.specs.Meaning.{waits, size_of, committed_size_of};

use card::directory::Directory;
use card_blocks::ring;
use card_places::range;
use record::store::{Changes, Geometry, Store};
use record_list::list;

#[tactic(auto, unfolding(record::specs::Holds::geometry_holds))]
fn geometry_holds(g: &Geometry) -> bool
    ensures { result ≡ geometry_holds g.now }
{
    range::fits(g.blocks, g.area, &g.ranges, g.count)
}

#[tactic(auto, unfolding(record::specs::Holds::committed_holds))]
fn committed_holds(s: &Store) -> bool
    ensures { let s = s.now in
        result ≡ committed_holds s.commit s.geometry.area s.first s.pages s.committed.count }
{
    let entries = s.committed.count;
    if s.commit == 0 {
        entries == 0 && s.pages == 0 && s.first == 1
    } else {
        1 <= entries && entries <= s.pages && 1 <= s.first && s.first <= s.geometry.area
    }
}

#[tactic(auto, unfolding(record::specs::Holds::pending_holds))]
fn pending_holds(commit: u32, g: &Changes) -> bool
    ensures { result ≡ pending_holds commit g.now.taken g.now.count g.now.down }
{
    let filled = if g.count == 0 {
        g.taken == 0
    } else {
        g.count <= g.taken && commit < u32::MAX
    };
    g.down <= g.taken && filled
}

#[tactic(auto, unfolding(record::specs::Holds::current_holds))]
fn current_holds(g: &Changes) -> bool
    ensures { result ≡ current_holds g.now.taken g.now.count g.now.down }
{
    g.count <= g.taken && g.down <= g.taken
}

// Is a generation's size at most half? The numbers may be anything.
pub fn size_fits(p: usize, e: usize, half: usize) -> bool
    requires { half ≤ 256 }
    ensures { result ≡ leb (generation_size p e) half }
{
    e == 0 || p <= half && e <= 64 * half && ring::size(p, e) <= half
}

// A generation's size, where it is known to be small.
pub fn size(p: usize, e: usize) -> usize
    requires { generation_size p e ≤ 512 }
    ensures { result ≡ generation_size p e }
{
    if e == 0 {
        return 0;
    }
    ring::size(p, e)
}

// Is each size at most half the area, and are all together at most the area?
#[tactic(auto, unfolding(record::specs::Holds::sizes_hold))]
fn sizes_hold(s: &Store) -> bool
    requires { s.now.geometry.area ≤ 512 }
    ensures { let s = s.now in
        result ≡ sizes_hold s.geometry.area (committed_size_of s) (size_of s.pending) (size_of s.current) }
{
    let half = s.geometry.area / 2;
    let (p, e) = (s.pages, s.committed.count);
    let (q, f) = (s.pending.taken, s.pending.count);
    let (r, g) = (s.current.taken, s.current.count);
    if !(size_fits(p, e, half) && size_fits(q, f, half) && size_fits(r, g, half)) {
        return false;
    }
    size(p, e) + size(q, f) + size(r, g) <= s.geometry.area
}

#[tactic(auto, unfolding(record::specs::Holds::tail_for))]
fn tail_for(e: usize) -> usize
    requires { e ≤ 65536 }
    ensures { result ≡ tail_for e }
{
    if e == 0 {
        return 0;
    }
    e.div_ceil(64) + 1
}

// How many frames of a generation wait.
fn waits(g: &Changes) -> usize
    requires { g.now.down ≤ g.now.taken }
    ensures { result ≡ waits g.now }
{
    g.taken - g.down
}

#[tactic(auto, unfolding(record::specs::Holds::flushed_holds))]
fn flushed_holds(s: &Store) -> bool
    requires { s.now.pending.count ≤ 65536 }
    ensures { result ≡ flushed_holds s.now.migrated s.now.committed.count s.now.tail s.now.pending.count }
{
    let pending = s.pending.count;
    pending != 0 && s.tail == tail_for(pending) && s.committed.count <= s.migrated
}

#[tactic(auto, unfolding(record::specs::Holds::phase_holds))]
fn phase_holds(s: &Store) -> bool
    requires { s.now.pending.count ≤ 65536 }
    ensures { let s = s.now in
        result ≡ phase_holds s.phase s.migrated s.committed.count s.tail s.pending.count }
{
    match s.phase {
        0 => true,
        1 => flushed_holds(s),
        2 => s.migrated == 0 && s.tail == 0,
        _ => false,
    }
}

#[tactic(auto, unfolding(record::specs::Holds::tail_holds))]
fn tail_holds(tail: usize, waiting: usize) -> bool
    ensures { result ≡ tail_holds tail waiting }
{
    tail == 0 || waiting == 0
}

#[tactic(auto, unfolding(record::specs::Holds::order_holds))]
fn order_holds(s: &Store, waiting: usize) -> bool
    requires { s.now.pending.count ≤ 65536 }
    ensures { let s = s.now in
        result ≡ order_holds s.migrated s.committed.count s.tail s.pending.count waiting s.phase }
{
    s.migrated <= s.committed.count
        && s.tail <= tail_for(s.pending.count)
        && tail_holds(s.tail, waiting)
        && phase_holds(s)
}

// Do a and b waiting frames fit memory?
#[tactic(auto, unfolding(record::specs::Holds::memory_holds))]
fn memory_holds(s: &Store, a: usize, b: usize) -> bool
    ensures { result ≡ memory_holds s.now.frames s.now.head (a + b) }
{
    s.head < s.frames && a <= s.frames && b <= s.frames - a
}

#[tactic(auto, unfolding(record::specs::Holds::counts_hold))]
fn counts_hold(s: &Store) -> bool
    ensures { result ≡ counts_hold s.now }
{
    geometry_holds(&s.geometry)
        && committed_holds(s)
        && pending_holds(s.commit, &s.pending)
        && current_holds(&s.current)
}

#[tactic(auto, unfolding(record::specs::Holds::spans_hold))]
fn spans_hold(s: &Store) -> bool
    requires { counts_hold s.now ≡ true }
    ensures { result ≡ spans_hold s.now }
{
    let pending = waits(&s.pending);
    let current = waits(&s.current);
    sizes_hold(s) && order_holds(s, pending) && memory_holds(s, pending, current)
}

// Does a directory of a generation of p places hold?
fn directory_holds(area: usize, blocks: usize, p: usize, frames: &[u16], places: &[u8]) -> bool
    requires area { area ≤ 512 }
    requires taken { p < 256 }
    ensures { result ≡ (all_rising (area + 1) blocks frames.now && all_within 0 p places.now) }
{
    list::all_rise(frames, area + 1, blocks) && list::all_taken(places, p)
}

// Do the changes of a generation hold? An empty directory is settled first: its places may be many.
fn changes_hold(area: usize, blocks: usize, g: &Changes) -> bool
    requires area { area ≤ 512 }
    requires entries { g.now.count ≤ g.now.taken }
    requires taken { 0 < g.now.count → g.now.taken < 256 }
    ensures { result ≡ changes_hold area blocks g.now }
{
    if g.count == 0 {
        return g.taken <= g.down;
    }
    let frames = &g.frames[..g.count];
    let places = &g.places[..g.count];
    directory_holds(area, blocks, g.taken, frames, places)
        && list::all_stand(places, g.down, g.taken)
}

// Does the committed directory hold, that of a generation of p places? Again an empty one first.
fn committed_listed(area: usize, blocks: usize, p: usize, d: &Directory) -> bool
    requires area { area ≤ 512 }
    requires entries { d.now.count ≤ 256 }
    requires taken { 0 < d.now.count → p < 256 }
    ensures { result ≡ directory_holds area blocks p d.now.frames d.now.places d.now.count }
{
    if d.count == 0 {
        return true;
    }
    let frames = &d.frames[..d.count];
    let places = &d.places[..d.count];
    directory_holds(area, blocks, p, frames, places)
}

// Do all three directories hold?
fn listed(s: &Store) -> bool
    requires counts { counts_hold s.now ≡ true }
    requires spans { spans_hold s.now ≡ true }
    ensures { let area = s.now.geometry.area in
        let blocks = s.now.geometry.blocks in
        let d = s.now.committed in
        result ≡ (directory_holds area blocks s.now.pages d.frames d.places d.count
        && (changes_hold area blocks s.now.pending && changes_hold area blocks s.now.current)) }
{
    let (area, blocks) = (s.geometry.area, s.geometry.blocks);
    committed_listed(area, blocks, s.pages, &s.committed)
        && changes_hold(area, blocks, &s.pending)
        && changes_hold(area, blocks, &s.current)
}

// Question 2, of any record.
#[tactic(auto, unfolding(record::specs::Holds::holds_together))]
pub fn holds_together(s: &Store) -> bool
    ensures { result ≡ holds_together s.now }
{
    counts_hold(s) && spans_hold(s) && listed(s)
}
