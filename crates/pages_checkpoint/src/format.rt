// Format: each pot, then the header, and no other block.
ghost use Rattle.std.specs.Prelude.{◌≡◌, true, ◌+◌, ◌*◌, ◌/◌, ◌≤◌, length};
ghost use Rattle.card.specs.Block.{whole};
ghost use Rattle.card.specs.Bytes.{tabulate};
ghost use Rattle.card.specs.Range.{geometry_fits, all_pots};
ghost use Rattle.card.specs.Refusal.{told};
ghost use Rattle.frames.specs.Promise.{numbered};
ghost use Rattle.pages.specs.Page.{put_pots};
ghost use Rattle.pages.specs.Promise.{answered, ranges_in, FormatKept};

use card::refusal::Refusal;
use card_blocks::block;
use card_checkpoint::header;
use card_places::{pot, range};

// The pots of one range, from its first block on.
fn put_range(card: &mut [u8], start: usize, count: usize)
    requires { 512 * (start + 103 * count) ≤ length card.old + 512 * 102 }
    ensures { card.new ≡ put_pots card.old (tabulate (λ i. start + 103 * i) 0 count) }
{
    let pot = pot::fresh();
    for i in 0..count {
        block::put(card, start + 103 * i, &pot);
    }
}

// Every pot.
fn put_pots(card: &mut [u8], area: usize, ranges: &[u32])
    requires whole { whole 11 65536 (length card.old) ≡ true }
    requires fits { geometry_fits (length card.old / 512) area (ranges_in ranges.now) ≡ true }
    ensures { card.new ≡ put_pots card.old (all_pots (ranges_in ranges.now) (1 + area)) }
{
    let mut at = 1 + area;
    for i in 0..ranges.len() / 2 {
        let pages = ranges[2 * i + 1] as usize;
        put_range(card, at, (pages + 101) / 102);
        at += range::blocks(pages);
    }
}

// Ranges come as numbers, first OID and n of each in turn.
pub fn format(card: &mut [u8], area: usize, ranges: &[u32]) -> Result<(), Refusal>
    ensures { FormatKept area ranges.now card.old (answered (numbered (told result))) card.new }
{
    if !block::is_whole(11, 65536, card.len()) {
        return Err(Refusal::Card);
    }
    if ranges.len() % 2 != 0 || !range::all_fit(card.len() / 512, area, ranges) {
        return Err(Refusal::Geometry);
    }
    put_pots(card, area, ranges);
    block::put(card, 0, &header::block(0, 0, area, ranges));
    Ok(())
}
