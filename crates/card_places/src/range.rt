// Home ranges: question 5, and the place of an OID. Ranges come as numbers, first OID and n of each in turn.
ghost use Rattle.std.specs.Prelude.{◌≡◌, ◌&&◌, ◌+◌, ◌/◌, ◌≤◌, ◌<◌, leb, ltb, length, Err};
ghost use Rattle.card.specs.Range.{ranges_of, ranges_fill, range_blocks, geometry_fits, address_in};
ghost use Rattle.card.specs.Range.{some_below, some_above, missing, locate, place_or};

use card::range::Address;
use card::refusal::Refusal;

// The blocks of a range of n pages.
pub fn blocks(n: usize) -> usize
    requires { n < 4294967296 }
    ensures { result ≡ range_blocks n }
{
    n + (n + 101) / 102
}

// Does a range start at low or above, have a page, and end below 4,294,967,296?
fn keeps(low: usize, oid: usize, pages: usize) -> bool
    requires oid { oid < 4294967296 }
    requires pages { pages < 4294967296 }
    ensures { result ≡ leb low oid && (leb 1 pages && leb (oid + pages) 4294967296) }
{
    low <= oid && 1 <= pages && oid + pages <= 4294967296
}

fn fill(ranges: &[u32], start: usize, card: usize) -> bool
    requires few { length ranges.now ≤ 17 }
    requires start { start ≤ 513 }
    ensures { result ≡ ranges_fill 0 start card (ranges_of ranges.now (length ranges.now / 2)) }
{
    let mut low = 0;
    let mut at = start;
    for pair in ranges.chunks_exact(2) {
        let oid = pair[0] as usize;
        let pages = pair[1] as usize;
        if !keeps(low, oid, pages) {
            return false;
        }
        low = oid + pages;
        at += blocks(pages);
    }
    at == card
}

// Question 5: do the area and the ranges keep the limits and fill a card of so many blocks?
pub fn all_fit(card: usize, area: usize, ranges: &[u32]) -> bool
    ensures { result ≡ geometry_fits card area (ranges_of ranges.now (length ranges.now / 2)) }
{
    let count = ranges.len() / 2;
    (8..=512).contains(&area) && (1..=8).contains(&count) && fill(ranges, 1 + area, card)
}

// Question 5, of a header or a record, whose count may be any number: more than 8 ranges are refused.
#[tactic(auto, using(card::proofs::RangeLaws::geometry_many, card::proofs::RangeLaws::ranges_of_front))]
pub fn fits(card: usize, area: usize, numbers: &[u32; 16], count: usize) -> bool
    ensures { result ≡ geometry_fits card area (ranges_of numbers.now count) }
{
    count <= 8 && all_fit(card, area, &numbers[..2 * count])
}

// Does a range hold an OID?
fn holds(first: usize, pages: usize, oid: usize) -> bool
    requires first { first < 4294967296 }
    requires pages { pages < 4294967296 }
    ensures { result ≡ leb first oid && ltb oid (first + pages) }
{
    (first..first + pages).contains(&oid)
}

// The place of page r of a range whose first block is start.
fn address_in(start: usize, r: usize) -> Address
    requires start { start < 1099511627776 }
    requires page { r < 4294967296 }
    ensures { result ≡ address_in start r }
{
    let run = r / 102;
    Address {
        page: start + r + run + 1,
        pot: start + 103 * run,
        entry: r % 102,
    }
}

// Does a range end at or below an OID?
fn some_below(ranges: &[u32], oid: usize) -> bool
    ensures { result ≡ some_below (ranges_of ranges.now (length ranges.now / 2)) oid }
{
    ranges
        .chunks_exact(2)
        .any(|pair| pair[0] as usize + pair[1] as usize <= oid)
}

// Does a range begin above an OID?
fn some_above(ranges: &[u32], oid: usize) -> bool
    ensures { result ≡ some_above (ranges_of ranges.now (length ranges.now / 2)) oid }
{
    ranges.chunks_exact(2).any(|pair| oid < pair[0] as usize)
}

// Why an OID in no range has no place: it lies between two of them, or outside.
#[tactic(auto, unfolding(card::specs::Range::missing))]
fn missing(ranges: &[u32], oid: usize) -> Refusal
    ensures { Err result ≡ place_or (missing (ranges_of ranges.now (length ranges.now / 2)) oid) }
{
    if some_below(ranges, oid) && some_above(ranges, oid) {
        Refusal::Gap
    } else {
        Refusal::Outside
    }
}

// The place of an OID.
pub fn find(area: usize, ranges: &[u32], oid: u32) -> Result<Address, Refusal>
    requires area { area ≤ 512 }
    requires few { length ranges.now ≤ 17 }
    ensures { result ≡ place_or (locate (ranges_of ranges.now (length ranges.now / 2)) (1 + area) oid) }
{
    let sought = oid as usize;
    let mut start = 1 + area;
    for pair in ranges.chunks_exact(2) {
        let first = pair[0] as usize;
        let pages = pair[1] as usize;
        if holds(first, pages, sought) {
            return Ok(address_in(start, sought - first));
        }
        start += blocks(pages);
    }
    Err(missing(ranges, sought))
}
