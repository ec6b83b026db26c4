// Tests of a whole list, and searches. A loop that asks of every element has no early exit and one comparison, so that
// it is compiled to vector code.
ghost use Rattle.std.specs.Prelude.{◌&&◌, ◌≡◌, ℕ, ◌-◌, ◌≤◌, ◌<◌, ltb, eqb, get_or, length, true};
ghost use Rattle.std.specs.List.{fold, zip};
ghost use Rattle.record.specs.Lists.{times, all_alone, all_within, all_rising, Rises, Below, First, Sought};

// How often each number stands among the places.
fn tally(places: &[u8]) -> [u8; 256]
    requires { length places.now < 256 }
    ensures { (k : ℕ) → get_or result k 0 ≡ times k places.now }
{
    let mut count = [0u8; 256];
    for &x in places {
        count[usize::from(x)] += 1;
    }
    count
}

// Is each count 1?
fn all_ones(counts: &[u8]) -> bool
    ensures { result ≡ fold (λ b n. b && eqb n 1) true counts.now }
{
    counts.iter().fold(true, |yes, &n| yes & (n == 1))
}

// Does each number from `from` up to, not including, `to` stand among the places, once only?
pub fn all_stand(places: &[u8], from: usize, to: usize) -> bool
    requires few { length places.now < 256 }
    requires end { to ≤ 256 }
    ensures { result ≡ all_alone places.now from (to - from) }
{
    to <= from || all_ones(&tally(places)[from..to])
}

// Is each place below the limit?
fn all_below(places: &[u8], limit: u8) -> bool
    ensures { result ≡ fold (λ b x. b && ltb x limit) true places.now }
{
    places.iter().fold(true, |yes, &x| yes & (x < limit))
}

// Is each place below p?
pub fn all_taken(places: &[u8], p: usize) -> bool
    requires { p < 256 }
    ensures { result ≡ all_within 0 p places.now }
{
    all_below(places, p as u8)
}

// Does each frame of the second list stand above that of the first? Lists of one length are compiled to vector code.
fn all_above(before: &[u16], after: &[u16]) -> bool
    ensures { result ≡ fold (λ b p. b && ltb p.0 p.1) true (zip before.now after.now) }
{
    before
        .iter()
        .zip(after)
        .fold(true, |yes, (&x, &y)| yes & (x < y))
}

// Do the frames rise, from low on and below high?
pub fn all_rise(frames: &[u16], low: usize, high: usize) -> bool
    ensures { result ≡ all_rising low high frames.now }
{
    if frames.is_empty() {
        return true;
    }
    let end = frames.len() - 1;
    let first = usize::from(frames[0]);
    let last = usize::from(frames[end]);
    let within = low <= first && last < high;
    within && all_above(&frames[..end], &frames[1..])
}

// Where x stands among frames that rise, or its place among them.
#[tactic(auto, using(record::proofs::ListLaws::sought_by_search))]
pub fn find(frames: &[u16], x: u16) -> Result<usize, usize>
    requires { Rises frames.now (length frames.now) }
    ensures { Sought frames.now x result }
{
    frames.binary_search(&x)
}
