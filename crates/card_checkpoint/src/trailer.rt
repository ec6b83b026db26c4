// The trailer of a generation: what is put, what is read back, and question 7.
ghost use Rattle.std.specs.Prelude.{◌≡◌, ◌≤◌, ◌<◌, length};
ghost use Rattle.card.specs.Trailer.{trailer_block, trailer_on};
ghost use Rattle.card.specs.Question.{ends_at, trailer_fits};

use card::header::Header;
use card::trailer::Trailer;
use card_blocks::ring::Ring;
use card_blocks::{block, number, ring};

#[tactic(auto, using(card::proofs::TrailerLaws::trailer_put))]
pub fn block(t: &Trailer) -> [u8; 512]
    requires first { t.now.first < 4294967296 }
    requires pages { t.now.pages < 4294967296 }
    requires entries { t.now.entries < 4294967296 }
    ensures { result ≡ trailer_block t.now }
{
    let numbers = [t.commit, t.first as u32, t.pages as u32, t.entries as u32];
    let mut bytes = block::empty();
    number::put_words(&mut bytes, 496, &numbers);
    bytes
}

#[tactic(auto, unfolding(card::specs::Trailer::trailer_on))]
pub fn read(bytes: &[u8; 512]) -> Trailer
    ensures { result ≡ trailer_on bytes.now }
{
    Trailer {
        commit: number::get_u32(bytes, 496),
        first: number::get_u32(bytes, 500) as usize,
        pages: number::get_u32(bytes, 504) as usize,
        entries: number::get_u32(bytes, 508) as usize,
    }
}

// Is the size of a generation of p and e at most H, and n its last block?
#[tactic(auto, using(card::proofs::RingLaws::size_above), unfolding(card::specs::Question::ends_at))]
fn ends_at(ring: Ring, p: usize, e: usize, n: usize) -> bool
    requires some { 1 ≤ e }
    requires few { e ≤ p }
    ensures { result ≡ ends_at ring.area ring.first p e n }
{
    // A size is told of 32-bit numbers alone, as p and e are within half the area.
    if ring.area / 2 < p {
        return false;
    }
    let size = ring::size(p, e);
    size <= ring.area / 2 && ring.at(size - 1) == n
}

// Question 7, of the trailer that a header names.
#[tactic(auto, unfolding(card::specs::Question::trailer_fits))]
pub fn fits(h: &Header, t: &Trailer) -> bool
    requires { h.now.area ≤ 512 }
    ensures { result ≡ trailer_fits h.now t.now }
{
    t.commit == h.commit
        && (1..=h.area).contains(&t.first)
        && (1..=t.pages).contains(&t.entries)
        && ends_at(
            Ring {
                area: h.area,
                first: t.first,
            },
            t.pages,
            t.entries,
            h.trailer,
        )
}
