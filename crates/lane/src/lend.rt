// The calls with the record by value: each keeps the record in a local, lends it to a call over a lent record, and hands
// it back beside the answer. They are one for each call: of one function over a closure nothing would be known of the
// card, memory or buffer that the closure borrows to change.
ghost use Rattle.frames.specs.Promise.{lent, reported};
ghost use Rattle.pages.specs.Call as call;
ghost use Rattle.pages.specs.Promise.{answered, counted_as, foretold_as, Kept};
ghost use Rattle.record.specs.Meaning.{zero_store};
ghost use Rattle.linked.specs.Linked.{number, filling, Linked};

use super::call;
use card::refusal::Refusal;
use frames::answer::{Advance, Done};
use record::store::Store;

// The record that is handed in is not read.
pub fn start(s: Store, card: &[u8], memory: &[u8]) -> Done<u32>
    ensures { Linked (call.start memory.now) (lent zero_store memory.now card.now) (number result.answer) (lent result.store memory.now card.now) }
{
    let mut store = s;
    let answer = call::lane_start(&mut store, card, memory);
    Done { answer, store }
}

pub fn key<'a>(s: Store, card: &'a [u8], memory: &'a [u8], oid: u32) -> Done<Result<u32, Refusal>>
    ensures { Kept (call.on oid call.key) (lent s memory.now card.now) (counted_as result.answer) (lent result.store memory.now card.now) }
{
    let mut store = s;
    let answer = call::key(&mut store, card, memory, oid);
    Done { answer, store }
}

pub fn read<'a>(
    s: Store,
    card: &'a [u8],
    memory: &'a [u8],
    oid: u32,
    count: u32,
    buffer: &mut [u8],
) -> Done<u32>
    ensures { Linked (call.on oid (call.read count buffer.old)) (lent s memory.now card.now) (filling result.answer buffer.new)
        (lent result.store memory.now card.now) }
{
    let mut store = s;
    let answer = call::lane_read(&mut store, card, memory, oid, count, buffer);
    Done { answer, store }
}

pub fn write(
    s: Store,
    card: &[u8],
    memory: &mut [u8],
    oid: u32,
    count: u32,
    at: usize,
    new: &[u8],
) -> Done<u32>
    ensures { Linked (call.on oid (call.write count at new.now)) (lent s memory.old card.now) (number result.answer) (lent result.store memory.new card.now) }
{
    let mut store = s;
    let answer = call::lane_write(&mut store, card, memory, oid, count, at, new);
    Done { answer, store }
}

pub fn rescind(s: Store, card: &[u8], memory: &mut [u8], oid: u32, count: u32) -> Done<u32>
    ensures { Linked (call.on oid (call.rescind count)) (lent s memory.old card.now) (number result.answer) (lent result.store memory.new card.now) }
{
    let mut store = s;
    let answer = call::lane_rescind(&mut store, card, memory, oid, count);
    Done { answer, store }
}

pub fn snapshot(s: Store, card: &[u8], memory: &[u8]) -> Done<u32>
    ensures { Linked call.snapshot (lent s memory.now card.now) (number result.answer) (lent result.store memory.now card.now) }
{
    let mut store = s;
    let answer = call::lane_snapshot(&mut store, card, memory);
    Done { answer, store }
}

pub fn page_out(s: Store, card: &mut [u8], memory: &[u8]) -> Done<Result<Advance, Refusal>>
    ensures { Kept call.page_out (lent s memory.now card.old) (answered (reported result.answer)) (lent result.store memory.now card.new) }
{
    let mut store = s;
    let answer = call::page_out(&mut store, card, memory);
    Done { answer, store }
}

pub fn advance(s: Store, card: &mut [u8], memory: &[u8]) -> Done<Result<Advance, Refusal>>
    ensures { Kept call.advance (lent s memory.now card.old) (answered (reported result.answer)) (lent result.store memory.now card.new) }
{
    let mut store = s;
    let answer = call::advance(&mut store, card, memory);
    Done { answer, store }
}

pub fn forecast(s: Store, card: &[u8], memory: &[u8]) -> Done<Result<u32, Refusal>>
    ensures { Kept call.forecast (lent s memory.now card.now) (foretold_as result.answer) (lent result.store memory.now card.now) }
{
    let mut store = s;
    let answer = call::forecast(&mut store, card, memory);
    Done { answer, store }
}
