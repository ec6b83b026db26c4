// Write: lent bytes at an offset of a page. The page changes first, then, if its flag was set, its pot.
ghost use Rattle.std.specs.Prelude.{◌≡◌, ◌++◌, ◌+◌, ◌≤◌, ◌<◌, leb, length};
ghost use Rattle.card.specs.Bytes.{patch, zeros};
ghost use Rattle.card.specs.Pot.{flags_at, put_flags, clear_zero};
ghost use Rattle.card.specs.Refusal.{told};
ghost use Rattle.frames.specs.Promise.{lent, numbered};
ghost use Rattle.pages.specs.Call.{on, write};
ghost use Rattle.pages.specs.Promise.{answered, Kept};

use card::refusal::Refusal;
use card_blocks::block;
use card_places::pot;
use frames::answer::Done;
use frames_change::change;
use frames_load::load;
use pages_read::named;
use record::store::Store;

// Question 11: do so many bytes at an offset end at 512 or before?
fn fits(at: usize, len: usize) -> bool
    ensures { result ≡ leb (at + len) 512 }
{
    at <= 512 && len <= 512 - at
}

// New bytes at an offset.
fn patch(bytes: &mut [u8; 512], at: usize, new: &[u8])
    requires { at + length new.now ≤ 512 }
    ensures { bytes.new ≡ patch bytes.old at new.now }
{
    bytes[at..at + new.len()].copy_from_slice(new);
}

// New bytes on an empty frame, and the page's pot after it.
fn lay(at: usize, new: &[u8], pot: &[u8; 512]) -> [u8; 1024]
    requires { at + length new.now ≤ 512 }
    ensures { result ≡ patch zeros at new.now ++ pot.now }
{
    let mut both = [0u8; 1024];
    let mut page = block::empty();
    patch(&mut page, at, new);
    block::put(&mut both, 0, &page);
    block::put(&mut both, 1, pot);
    both
}

// In a pot: the flag of entry i cleared.
fn clear(pot: &mut [u8; 512], i: usize)
    requires { i < 102 }
    ensures { pot.new ≡ put_flags pot.old i (clear_zero (flags_at pot.old i)) }
{
    let flags = pot::flags_at(pot, i);
    pot::put_flags(pot, i, pot::clear_zero(flags));
}

// Over a lent record.
fn put(
    s: &mut Store,
    card: &[u8],
    memory: &mut [u8],
    oid: u32,
    count: u32,
    at: usize,
    new: &[u8],
) -> Result<(), Refusal>
    ensures { Kept (on oid (write count at new.now)) (lent s.old memory.old card.now) (answered (numbered (told result)))
        (lent s.new memory.new card.now) }
{
    let (place, pot) = named::pot(s, card, memory, oid)?;
    named::keyed(
        pot,
        place.entry,
        count,
        fits(at, new.len()),
        Refusal::Length,
    )?;
    if new.is_empty() {
        return Ok(());
    }
    let page = place.page as u16;
    if named::is_zero(pot, place.entry) {
        let mut cleared = *pot;
        clear(&mut cleared, place.entry);
        let both = lay(at, new, &cleared);
        return change::change(s, memory, &[page, place.pot as u16], &both);
    }
    // A page that is written whole keeps nothing of its old bytes, and is not looked up.
    if new.len() == 512 {
        return change::change(s, memory, &[page], new);
    }
    let mut bytes = *load::load(s, card, memory, place.page);
    patch(&mut bytes, at, new);
    change::change(s, memory, &[page], &bytes)
}

// By value, as document 01 names the form of the calls; what it comes to is done over a lent record.
pub fn write(
    s: Store,
    card: &[u8],
    memory: &mut [u8],
    oid: u32,
    count: u32,
    at: usize,
    new: &[u8],
) -> Done<Result<(), Refusal>>
    ensures { Kept (on oid (write count at new.now)) (lent s memory.old card.now) (answered (numbered (told result.answer)))
        (lent result.store memory.new card.now) }
{
    let mut store = s;
    let answer = put(&mut store, card, memory, oid, count, at, new);
    Done { answer, store }
}
