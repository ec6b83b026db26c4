// Key: the present count for an OID. It changes nothing, and hands back its answer alone.
ghost use Rattle.frames.specs.Promise.{lent};
ghost use Rattle.pages.specs.Call.{on, key};
ghost use Rattle.pages.specs.Promise.{counted_as, Kept};

use super::named;
use card::refusal::Refusal;
use card_places::pot;
use record::store::Store;

pub fn key<'a>(s: Store, card: &'a [u8], memory: &'a [u8], oid: u32) -> Result<u32, Refusal>
    ensures { Kept (on oid key) (lent s memory.now card.now) (counted_as result) (lent s memory.now card.now) }
{
    let (place, pot) = named::pot(&s, card, memory, oid)?;
    Ok(pot::count_at(pot, place.entry))
}
