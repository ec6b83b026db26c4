// Read: a page's bytes into a buffer of 512. It changes nothing else.
ghost use Rattle.card.specs.Refusal.{told};
ghost use Rattle.frames.specs.Promise.{lent};
ghost use Rattle.pages.specs.Call.{on, read, filled};
ghost use Rattle.pages.specs.Promise.{Kept};

use super::named;
use card::refusal::Refusal;
use card_blocks::block;
use frames_load::load;
use record::store::Store;

// Card and memory are lent for one lifetime: pot and page are parts of either.
pub fn read<'a>(
    s: Store,
    card: &'a [u8],
    memory: &'a [u8],
    oid: u32,
    count: u32,
    buffer: &mut [u8],
) -> Result<(), Refusal>
    ensures { Kept (on oid (read count buffer.old)) (lent s memory.now card.now) (filled (told result) buffer.new)
        (lent s memory.now card.now) }
{
    let (place, pot) = named::pot(&s, card, memory, oid)?;
    named::keyed(
        pot,
        place.entry,
        count,
        buffer.len() == 512,
        Refusal::Length,
    )?;
    if named::is_zero(pot, place.entry) {
        buffer.copy_from_slice(&block::empty());
    } else {
        buffer.copy_from_slice(load::load(&s, card, memory, place.page));
    }
    Ok(())
}
