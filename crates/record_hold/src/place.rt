// Where things stand: memory frames of the queue, and the rings of the generations.
ghost use Rattle.std.specs.Prelude.{◌≡◌, true, ◌*◌, ◌≤◌, ◌<◌, length};
ghost use Rattle.card.specs.Block.{put_block};
ghost use Rattle.record.specs.Meaning.{seat_at, pending_first, current_first};
ghost use Rattle.record.specs.Holds.{holds_together};

use super::hold;
use card_blocks::block;
use card_blocks::ring::Ring;
use record::store::Store;

// The memory frame i on from head.
#[tactic(auto, unfolding(record::specs::Meaning::seat_at))]
pub fn seat(s: &Store, i: usize) -> usize
    requires head { s.now.head < s.now.frames }
    requires inside { i ≤ s.now.frames }
    requires few { s.now.frames ≤ 64 }
    ensures { result ≡ seat_at s.now.frames s.now.head i }
{
    let n = s.head + i;
    if n < s.frames { n } else { n - s.frames }
}

// A waiting frame's bytes, into the memory frame of its turn.
pub fn put(s: &Store, memory: &mut [u8], turn: usize, bytes: &[u8; 512])
    requires head { s.now.head < s.now.frames }
    requires inside { turn ≤ s.now.frames }
    requires few { s.now.frames ≤ 64 }
    requires memory { length memory.old ≡ 512 * s.now.frames }
    ensures { memory.new ≡ put_block memory.old (seat_at s.now.frames s.now.head turn) bytes.now }
{
    block::put(memory, seat(s, turn), bytes);
}

// The ring from the committed generation's first block on.
pub fn committed_ring(s: &Store) -> Ring
    requires { holds_together s.now ≡ true }
    ensures area { result.area ≡ s.now.geometry.area }
    ensures first { result.first ≡ s.now.first }
{
    Ring {
        area: s.geometry.area,
        first: s.first,
    }
}

// From the pending generation's.
pub fn pending_ring(s: &Store) -> Ring
    requires { holds_together s.now ≡ true }
    ensures area { result.area ≡ s.now.geometry.area }
    ensures first { result.first ≡ pending_first s.now }
{
    let a = hold::size(s.pages, s.committed.count);
    let first = committed_ring(s).at(a);
    Ring {
        area: s.geometry.area,
        first,
    }
}

// From the current generation's.
pub fn current_ring(s: &Store) -> Ring
    requires { holds_together s.now ≡ true }
    ensures area { result.area ≡ s.now.geometry.area }
    ensures first { result.first ≡ current_first s.now }
{
    let a = hold::size(s.pages, s.committed.count);
    let b = hold::size(s.pending.taken, s.pending.count);
    let first = committed_ring(s).at(a + b);
    Ring {
        area: s.geometry.area,
        first,
    }
}
