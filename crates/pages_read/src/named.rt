// The page that a call names: its place (questions 21 and 9) and its pot, question 10 with the one that is asked behind
// it, 11 or 15, and its zero flag.
ghost use Rattle.std.specs.Prelude.{◌≡◌, [], ◌∷◌, ◌++◌, ◌≤◌, ◌<◌, eqb, IfOk};
ghost use Rattle.card.specs.Question.{ask, first_no};
ghost use Rattle.card.specs.Pot.{count_at, is_zero, flags_at};
ghost use Rattle.card.specs.Refusal.{number, told};
ghost use Rattle.frames.specs.Promise.{lent, common};
ghost use Rattle.pages.specs.Promise.{NamedIs, PotFound, placed, address_of};

use card::range::Address;
use card::refusal::Refusal;
use card_places::{pot, range};
use frames_load::{load, question};
use record::store::{Geometry, Store};

// Its place by its OID: 21, 9.
pub fn find(g: &Geometry, oid: u32) -> Result<Address, Refusal>
    requires area { g.now.area ≤ 512 }
    requires few { g.now.count ≤ 8 }
    ensures { NamedIs g.now oid result }
{
    range::find(g.area, &g.ranges[..2 * g.count], oid)
}

// Its place and its pot, for every call on a page: 1 to 3, 21, 9. Card and memory are lent for one lifetime: the pot is
// a part of either.
pub fn pot<'a>(
    s: &Store,
    card: &'a [u8],
    memory: &'a [u8],
    oid: u32,
) -> Result<(Address, &'a [u8; 512]), Refusal>
    ensures told { told result ≡ first_no (common (lent s.now memory.now card.now) ++ placed (address_of (lent s.now memory.now card.now) oid) (λ p. [])) }
    ensures found { IfOk result (λ x. PotFound (lent s.now memory.now card.now) oid x.0 x.1.now) }
{
    question::common(s, memory.len(), card.len())?;
    let place = find(&s.geometry, oid)?;
    Ok((place, load::load(s, card, memory, place.pot)))
}

// By its key: 10, and then one question more, of any number, as documents name this function.
#[tactic(auto, unfolding(card::specs::Question::first_no))]
pub fn check(pot: &[u8; 512], entry: usize, count: u32, number: u32, yes: bool) -> u32
    requires { entry < 102 }
    ensures { result ≡ first_no (ask 10 (eqb (count_at pot.now entry) count) ∷ ask number yes ∷ []) }
{
    if pot::count_at(pot, entry) != count {
        return 10;
    }
    if yes { 0 } else { number }
}

// The same, where `other` refuses what is asked behind 10.
#[tactic(auto, unfolding(card::specs::Question::first_no))]
pub fn keyed(
    pot: &[u8; 512],
    entry: usize,
    count: u32,
    yes: bool,
    other: Refusal,
) -> Result<(), Refusal>
    requires { entry < 102 }
    ensures { told result ≡ first_no (ask 10 (eqb (count_at pot.now entry) count) ∷ ask (number other) yes ∷ []) }
{
    match check(pot, entry, count, other.into(), yes) {
        0 => Ok(()),
        10 => Err(Refusal::Count),
        _ => Err(other),
    }
}

// Is its flag set?
pub fn is_zero(pot: &[u8; 512], entry: usize) -> bool
    requires { entry < 102 }
    ensures { result ≡ is_zero (flags_at pot.now entry) }
{
    pot::is_zero(pot::flags_at(pot, entry))
}
