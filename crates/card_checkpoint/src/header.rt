// The header: what is put into block 0, what is read back, and questions 4 to 6.
ghost use Rattle.std.specs.Prelude.{◌≡◌, ◌/◌, ◌%◌, ◌≤◌, ◌<◌, length};
ghost use Rattle.card.specs.Bytes.{read_words};
ghost use Rattle.card.specs.Range.{ranges_of};
ghost use Rattle.card.specs.Header.{header_block, header_on};
ghost use Rattle.card.specs.Question.{first_no, commit_fits, header_asks};
ghost use Rattle.card.specs.Refusal.{told};

use card::header::Header;
use card::refusal::Refusal;
use card_blocks::{block, number};
use card_places::range;

// The header of a card. Ranges come as numbers, first OID and n of each in turn.
#[tactic(auto, using(card::proofs::HeaderLaws::header_put))]
pub fn block(commit: u32, trailer: usize, area: usize, ranges: &[u32]) -> [u8; 512]
    requires trailer { trailer < 4294967296 }
    requires area { area < 4294967296 }
    requires few { length ranges.now ≤ 16 }
    requires pairs { length ranges.now % 2 ≡ 0 }
    ensures { result ≡ header_block commit trailer area (ranges_of ranges.now (length ranges.now / 2)) }
{
    let count = ranges.len() / 2;
    let fixed = [1, commit, trailer as u32, area as u32, count as u32];
    let mut bytes = block::empty();
    number::put_words(&mut bytes, 0, &fixed);
    number::put_words(&mut bytes, 20, ranges);
    bytes
}

fn read_ranges(bytes: &[u8; 512]) -> [u32; 16]
    ensures { result ≡ read_words bytes.now 20 16 }
{
    let mut ranges = [0; 16];
    for (k, x) in ranges.iter_mut().enumerate() {
        *x = number::get_u32(bytes, 20 + 4 * k);
    }
    ranges
}

#[tactic(auto, unfolding(card::specs::Header::header_on))]
pub fn read(bytes: &[u8; 512]) -> Header
    ensures { result ≡ header_on bytes.now }
{
    Header {
        layout: number::get_u32(bytes, 0),
        commit: number::get_u32(bytes, 4),
        trailer: number::get_u32(bytes, 8) as usize,
        area: number::get_u32(bytes, 12) as usize,
        count: number::get_u32(bytes, 16) as usize,
        ranges: read_ranges(bytes),
    }
}

#[tactic(auto, unfolding(card::specs::Question::commit_fits))]
fn commit_fits(commit: u32, trailer: usize, area: usize) -> bool
    ensures { result ≡ commit_fits commit trailer area }
{
    if commit == 0 {
        trailer == 0
    } else {
        (1..=area).contains(&trailer)
    }
}

// Questions 4 to 6, of the header of a card of so many blocks.
#[tactic(auto, unfolding(card::specs::Question::first_no, card::specs::Question::header_asks))]
pub fn question(h: &Header, blocks: usize) -> Result<(), Refusal>
    ensures { told result ≡ first_no (header_asks blocks h.now) }
{
    if h.layout != 1 {
        return Err(Refusal::Layout);
    }
    if !range::fits(blocks, h.area, &h.ranges, h.count) {
        return Err(Refusal::Geometry);
    }
    if !commit_fits(h.commit, h.trailer, h.area) {
        return Err(Refusal::Commit);
    }
    Ok(())
}
