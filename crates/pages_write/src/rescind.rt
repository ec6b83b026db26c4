// Rescind: the count rises by 1 and the flag is set, so that no key made before fits. Only the pot changes.
ghost use Rattle.std.specs.Prelude.{◌≡◌, ◌<◌};
ghost use Rattle.card.specs.Pot.{count_at};
ghost use Rattle.card.specs.Refusal.{told};
ghost use Rattle.frames.specs.Promise.{lent, numbered};
ghost use Rattle.pages.specs.Call.{on, rescind};
ghost use Rattle.pages.specs.Change.{rescind_pot};
ghost use Rattle.pages.specs.Promise.{answered, Kept};

use card::refusal::Refusal;
use card_places::pot;
use frames::answer::Done;
use frames_change::change;
use pages_read::named;
use record::store::Store;

// In a pot: the count of entry i risen, its flag set.
#[tactic(auto, unfolding(pages::specs::Change::rescind_pot))]
fn raise(pot: &mut [u8; 512], i: usize)
    requires entry { i < 102 }
    requires few { count_at pot.old i < 4294967295 }
    ensures { pot.new ≡ rescind_pot pot.old i }
{
    let count = pot::count_at(pot, i);
    let flags = pot::flags_at(pot, i);
    pot::put_count(pot, i, count + 1);
    pot::put_flags(pot, i, pot::set_zero(flags));
}

// Over a lent record.
fn empty(s: &mut Store, card: &[u8], memory: &mut [u8], oid: u32, count: u32) -> Result<(), Refusal>
    ensures { Kept (on oid (rescind count)) (lent s.old memory.old card.now) (answered (numbered (told result)))
        (lent s.new memory.new card.now) }
{
    let (place, pot) = named::pot(s, card, memory, oid)?;
    named::keyed(
        pot,
        place.entry,
        count,
        count < u32::MAX,
        Refusal::LastCount,
    )?;
    let mut pot = *pot;
    raise(&mut pot, place.entry);
    change::change(s, memory, &[place.pot as u16], &pot)
}

// By value, as document 01 names the form of the calls; what it comes to is done over a lent record.
pub fn rescind(
    s: Store,
    card: &[u8],
    memory: &mut [u8],
    oid: u32,
    count: u32,
) -> Done<Result<(), Refusal>>
    ensures { Kept (on oid (rescind count)) (lent s memory.old card.now) (answered (numbered (told result.answer)))
        (lent result.store memory.new card.now) }
{
    let mut store = s;
    let answer = empty(&mut store, card, memory, oid, count);
    Done { answer, store }
}
