// Forecast: how many advances until the pending snapshot is safe, flushes counted and pages that migration passes over
// not; with none pending, the flush that is owed. It changes nothing, and hands back its answer alone.
ghost use Rattle.frames.specs.Promise.{lent};
ghost use Rattle.pages.specs.Call.{forecast};
ghost use Rattle.pages.specs.Promise.{foretold_as, Kept};

use super::home;
use card::refusal::Refusal;
use frames_load::{forecast, question};
use record::store::Store;

pub fn forecast(s: Store, card: &[u8], memory: &[u8]) -> Result<u32, Refusal>
    ensures { Kept forecast (lent s memory.now card.now) (foretold_as result) (lent s memory.now card.now) }
{
    question::common(&s, memory.len(), card.len())?;
    Ok(forecast::forecast(&s, home::moves(&s, card)))
}
