// Allocation pots: the count and the flags of each page of a run.
ghost use Rattle.std.specs.Prelude.{◌≡◌, ◌<◌, length};
ghost use Rattle.card.specs.Pot.{entry_at, count_at, flags_at, put_count, put_flags, is_zero, set_zero, clear_zero, fresh_pot};

use card_blocks::{block, number};

// The byte position of entry i.
fn entry_at(i: usize) -> usize
    requires { i < 102 }
    ensures { result ≡ entry_at i }
{
    5 * i
}

#[tactic(auto, unfolding(card::specs::Pot::count_at))]
pub fn count_at(pot: &[u8; 512], i: usize) -> u32
    requires { i < 102 }
    ensures { result ≡ count_at pot.now i }
{
    number::get_u32(pot, entry_at(i))
}

#[tactic(auto, unfolding(card::specs::Pot::flags_at))]
pub fn flags_at(pot: &[u8; 512], i: usize) -> u8
    requires { i < 102 }
    ensures { result ≡ flags_at pot.now i }
{
    pot[entry_at(i) + 4]
}

#[tactic(auto, unfolding(card::specs::Pot::put_count))]
pub fn put_count(pot: &mut [u8; 512], i: usize, n: u32)
    requires { i < 102 }
    ensures { pot.new ≡ put_count pot.old i n }
{
    number::put_u32(pot, entry_at(i), n);
}

pub fn put_flags(pot: &mut [u8; 512], i: usize, flags: u8)
    requires { i < 102 }
    ensures { pot.new ≡ put_flags pot.old i flags }
{
    pot[entry_at(i) + 4] = flags;
}

// Do the flags say that the page is all zeros?
pub fn is_zero(flags: u8) -> bool
    ensures { result ≡ is_zero flags }
{
    flags & 1 == 1
}

pub fn set_zero(flags: u8) -> u8
    ensures { result ≡ set_zero flags }
{
    flags | 1
}

pub fn clear_zero(flags: u8) -> u8
    ensures { result ≡ clear_zero flags }
{
    flags & 254
}

// A formatted pot.
pub fn fresh() -> [u8; 512]
    ensures { result ≡ fresh_pot }
{
    let mut pot = block::empty();
    for i in 0..102 {
        put_flags(&mut pot, i, 1);
    }
    pot
}
