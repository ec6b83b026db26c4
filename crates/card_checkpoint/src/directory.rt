// Directories: what is put into their blocks, what is read back, and question 8.
ghost use Rattle.std.specs.Prelude.{◌≡◌, ◌+◌, ◌*◌, ◌/◌, ◌≤◌, ◌<◌, length, is_some, IfSome};
ghost use Rattle.card.specs.Ring.{dir_blocks};
ghost use Rattle.card.specs.Directory.{entries_of, PlacesBelow, dir_block, read_entry, entry_on, read_dir};
ghost use Rattle.card.specs.Question.{entry_fits, entries_fit};

use card::directory::{Directory, Entry};
use card_blocks::ring::Ring;
use card_blocks::{block, number};

pub fn empty() -> Directory
    ensures count { result.count ≡ 0 }
    ensures frames { length result.frames ≡ 256 }
    ensures places { length result.places ≡ 256 }
{
    Directory {
        count: 0,
        frames: [0; 256],
        places: [0; 256],
    }
}

// The j-th block of a directory.
pub fn block(ring: Ring, frames: &[u16], places: &[u8], j: usize) -> [u8; 512]
    requires as_many { length places.now ≡ length frames.now }
    requires begins { 64 * j ≤ length frames.now }
    requires places { PlacesBelow ring.area (length places.now) places.now }
    ensures { result ≡ dir_block (entries_of ring.area ring.first frames.now places.now (length frames.now)) j }
{
    let mut bytes = block::empty();
    let from = 64 * j;
    let n = (frames.len() - from).min(64);
    for k in 0..n {
        let block = ring.at(usize::from(places[from + k]));
        let entry = [u32::from(frames[from + k]), block as u32];
        number::put_words(&mut bytes, 8 * k, &entry);
    }
    bytes
}

// Entry k of a directory's block.
#[tactic(auto, unfolding(card::specs::Directory::read_entry))]
fn read_entry(bytes: &[u8; 512], k: usize) -> Entry
    requires { k < 64 }
    ensures { result ≡ read_entry bytes.now k }
{
    Entry {
        frame: number::get_u32(bytes, 8 * k),
        block: number::get_u32(bytes, 8 * k + 4),
    }
}

// Entry i of the directory behind p page blocks from the ring's first on.
#[tactic(auto, using(card::proofs::RingLaws::ring_high), unfolding(card::specs::Directory::entry_on))]
fn entry_on(card: &[u8], ring: Ring, p: usize, i: usize) -> Entry
    requires card { 512 * ring.area + 512 ≤ length card.now }
    requires inside { p + i / 64 ≤ ring.area }
    ensures { result ≡ entry_on card.now ring.area ring.first p i }
{
    read_entry(block::at(card, ring.at(p + i / 64)), i % 64)
}

// Is an entry above the frame before it, of a home frame, and with a block among the p page blocks from the ring's
// first on?
#[tactic(auto, unfolding(card::specs::Question::entry_fits))]
fn entry_fits(blocks: usize, ring: Ring, p: usize, low: usize, x: Entry) -> bool
    ensures { result ≡ entry_fits blocks ring.area ring.first p low x }
{
    let frame = x.frame as usize;
    let block = x.block as usize;
    low < frame && frame < blocks && (1..=ring.area).contains(&block) && ring.offset(block) < p
}

// The directory of e entries behind p page blocks from the ring's first on, on a card of so many blocks, if question 8
// is answered "yes". A card can hold any 32-bit numbers as an entry, so each is asked about before its frame is kept
// in 16 bits and its place in 8.
pub fn read(card: &[u8], blocks: usize, ring: Ring, p: usize, e: usize) -> Option<Directory>
    requires card { 512 * ring.area + 512 ≤ length card.now }
    requires blocks { blocks ≤ 65536 }
    requires inside { p + dir_blocks e ≤ ring.area }
    requires entries { e ≤ 256 }
    requires pages { p ≤ 256 }
    ensures fits { is_some result
        ≡ entries_fit blocks ring.area ring.first p ring.area (read_dir card.now ring.area ring.first p e) }
    ensures count { IfSome result (λ d. d.count ≡ e) }
    ensures entries { IfSome result (λ d. entries_of ring.area ring.first d.frames d.places e
        ≡ read_dir card.now ring.area ring.first p e) }
    ensures places { IfSome result (λ d. PlacesBelow p e d.places) }
{
    let mut directory = empty();
    let mut low = ring.area;
    for i in 0..e {
        let x = entry_on(card, ring, p, i);
        if !entry_fits(blocks, ring, p, low, x) {
            return None;
        }
        directory.frames[i] = x.frame as u16;
        directory.places[i] = ring.offset(x.block as usize) as u8;
        low = x.frame as usize;
    }
    directory.count = e;
    Some(directory)
}
