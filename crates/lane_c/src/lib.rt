// What C links: the calls over a lent record, as `lane` has them, under the same names and with the same promises. The
// archive bears the name liblane.a.
#![tactic(auto)]

ghost use Rattle.std.specs.Prelude.{◌≡◌};
ghost use Rattle.frames.specs.Promise.{lent, numbered};
ghost use Rattle.pages.specs.Call as call;
ghost use Rattle.pages.specs.Promise.{answered, FormatKept};
ghost use Rattle.record.specs.Meaning.{zero_store};
ghost use Rattle.linked.specs.Linked.{version, number, filling, present, foretelling, report, Linked};

use linked::answer::{Foretold, Present, Report};
use record::store::Store;

#[unsafe(no_mangle)]
pub extern "C" fn lane_version() -> u32
    ensures { result ≡ version }
{
    lane::call::lane_version()
}

#[unsafe(no_mangle)]
pub extern "C" fn lane_format(card: &mut [u8], area: usize, ranges: &[u32]) -> u32
    ensures { FormatKept area ranges.now card.old (answered (numbered result)) card.new }
{
    lane::call::lane_format(card, area, ranges)
}

#[unsafe(no_mangle)]
pub extern "C" fn lane_start(s: &mut Store, card: &[u8], memory: &[u8]) -> u32
    ensures { Linked (call.start memory.now) (lent zero_store memory.now card.now) (number result) (lent s.new memory.now card.now) }
{
    lane::call::lane_start(s, card, memory)
}

#[unsafe(no_mangle)]
pub extern "C" fn lane_key<'s, 'a>(
    s: &'s mut Store,
    card: &'a [u8],
    memory: &'a [u8],
    oid: u32,
) -> Present
    ensures linked { Linked (call.on oid call.key) (lent s.old memory.now card.now) (present result.refusal result.count) (lent s.new memory.now card.now) }
    ensures same { s.new ≡ s.old }
{
    lane::call::lane_key(s, card, memory, oid)
}

#[unsafe(no_mangle)]
pub extern "C" fn lane_read<'s, 'a, 'b>(
    s: &'s mut Store,
    card: &'a [u8],
    memory: &'a [u8],
    oid: u32,
    count: u32,
    buffer: &'b mut [u8],
) -> u32
    ensures linked { Linked (call.on oid (call.read count buffer.old)) (lent s.old memory.now card.now) (filling result buffer.new)
        (lent s.new memory.now card.now) }
    ensures same { s.new ≡ s.old }
{
    lane::call::lane_read(s, card, memory, oid, count, buffer)
}

#[unsafe(no_mangle)]
pub extern "C" fn lane_write(
    s: &mut Store,
    card: &[u8],
    memory: &mut [u8],
    oid: u32,
    count: u32,
    at: usize,
    new: &[u8],
) -> u32
    ensures { Linked (call.on oid (call.write count at new.now)) (lent s.old memory.old card.now) (number result) (lent s.new memory.new card.now) }
{
    lane::call::lane_write(s, card, memory, oid, count, at, new)
}

#[unsafe(no_mangle)]
pub extern "C" fn lane_rescind(
    s: &mut Store,
    card: &[u8],
    memory: &mut [u8],
    oid: u32,
    count: u32,
) -> u32
    ensures { Linked (call.on oid (call.rescind count)) (lent s.old memory.old card.now) (number result) (lent s.new memory.new card.now) }
{
    lane::call::lane_rescind(s, card, memory, oid, count)
}

#[unsafe(no_mangle)]
pub extern "C" fn lane_snapshot(s: &mut Store, card: &[u8], memory: &[u8]) -> u32
    ensures { Linked call.snapshot (lent s.old memory.now card.now) (number result) (lent s.new memory.now card.now) }
{
    lane::call::lane_snapshot(s, card, memory)
}

#[unsafe(no_mangle)]
pub extern "C" fn lane_page_out(s: &mut Store, card: &mut [u8], memory: &[u8]) -> Report
    ensures { Linked call.page_out (lent s.old memory.now card.old) (report result.kind result.refusal result.block) (lent s.new memory.now card.new) }
{
    lane::call::lane_page_out(s, card, memory)
}

#[unsafe(no_mangle)]
pub extern "C" fn lane_advance(s: &mut Store, card: &mut [u8], memory: &[u8]) -> Report
    ensures { Linked call.advance (lent s.old memory.now card.old) (report result.kind result.refusal result.block) (lent s.new memory.now card.new) }
{
    lane::call::lane_advance(s, card, memory)
}

#[unsafe(no_mangle)]
pub extern "C" fn lane_forecast(s: &mut Store, card: &[u8], memory: &[u8]) -> Foretold
    ensures linked { Linked call.forecast (lent s.old memory.now card.now) (foretelling result.refusal result.advances) (lent s.new memory.now card.now) }
    ensures same { s.new ≡ s.old }
{
    lane::call::lane_forecast(s, card, memory)
}
