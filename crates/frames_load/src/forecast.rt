// Forecast: how many advances until the pending snapshot is safe, each flush counted up to the one after its header
// write; with none pending, the flush that is owed. The layer above tells how many committed entries are to be copied
// before that header write.
ghost use Rattle.std.specs.Prelude.{true, ◌≡◌, ◌≤◌, ltb};
ghost use Rattle.frames.specs.Parts.{flush_owed, ends_left, Foretells};
ghost use Rattle.record.specs.Holds.{holds_together};

use record::store::Store;

// Is a snapshot pending?
pub fn is_pending(s: &Store) -> bool
    ensures { result ≡ ltb 0 s.now.pending.count }
{
    0 < s.pending.count
}

// The flush that is owed.
#[tactic(auto, unfolding(record::specs::Meaning::phase_of))]
fn owed(phase: u32) -> u32
    requires { phase ≤ 2 }
    ensures { result ≡ flush_owed phase }
{
    u32::from(phase == 2)
}

// The header write and its flushes, and one that is owed.
#[tactic(auto, unfolding(record::specs::Meaning::phase_of))]
fn ends(phase: u32) -> usize
    requires { phase ≤ 2 }
    ensures ends { result ≡ ends_left phase }
    ensures few { result ≤ 4 }
{
    match phase {
        0 => 3,
        1 => 2,
        _ => 4,
    }
}

// For a layer above that has asked questions 1 to 3.
pub fn forecast(s: &Store, moves: usize) -> u32
    requires together { holds_together s.now ≡ true }
    requires few { moves ≤ 256 }
    ensures { Foretells s.now moves result }
{
    if s.pending.count == 0 {
        return owed(s.phase);
    }
    let waiting = s.pending.taken - s.pending.down;
    let behind = (s.pending.count + 63) / 64 + 1 - s.tail;
    (waiting + behind + moves + ends(s.phase)) as u32
}
