// The ring of the checkpoint area, blocks 1 to area, and the sizes of generations in it.
ghost use Rattle.std.specs.Prelude.{◌≡◌, ◌≤◌, ◌<◌};
ghost use Rattle.card.specs.Ring.{ring_at, ring_offset, generation_size};

// The ring as it is counted from one block of it on, the first of a generation.
#[derive(Clone, Copy)]
pub struct Ring {
    pub area: usize,
    pub first: usize,
    ghost area_high: { area ≤ 512 },
    ghost first_inside: { first ≤ area },
}

impl Ring {
    // The block i places on from first.
    #[tactic(auto, unfolding(card::specs::Ring::ring_at))]
    pub fn at(self, i: usize) -> usize
        requires { i ≤ self.area }
        ensures { result ≡ ring_at self.area self.first i }
    {
        let n = self.first + i;
        if n <= self.area { n } else { n - self.area }
    }

    // How many places on from first block n stands.
    #[tactic(auto, unfolding(card::specs::Ring::ring_offset))]
    pub fn offset(self, n: usize) -> usize
        requires { n ≤ self.area }
        ensures { result ≡ ring_offset self.area self.first n }
    {
        if self.first <= n {
            n - self.first
        } else {
            n + self.area - self.first
        }
    }
}

// The size of a generation of p page blocks and e entries.
pub fn size(p: usize, e: usize) -> usize
    requires pages { p < 4294967296 }
    requires entries { e < 4294967296 }
    ensures { result ≡ generation_size p e }
{
    if e == 0 {
        return 0;
    }
    p + (e + 63) / 64 + 1
}
