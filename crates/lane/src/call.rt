// The calls over a lent record: each calls the by-value core, and puts the record back. Key, read and forecast change
// nothing, so that there is none to put back: C gets them with a const record. Key and read are lent card and memory for
// one lifetime, as their cores are.
// Key, page-out, advance and forecast answer with a count, a block or a refusal, and with numbers for C, to which
// `lane_c` hands these out. Each wrapper copies the record in and out, as document 01 names the form.
ghost use Rattle.std.specs.Prelude.{◌≡◌};
ghost use Rattle.frames.specs.Promise.{lent, numbered, reported};
ghost use Rattle.pages.specs.Call as call;
ghost use Rattle.pages.specs.Promise.{answered, counted_as, foretold_as, Kept, FormatKept};
ghost use Rattle.record.specs.Meaning.{zero_store};
ghost use Rattle.linked.specs.Linked.{version, number, filling, present, foretelling, report, Linked};

use super::number;
use card::refusal::Refusal;
use frames::answer::Advance;
use linked::answer::{Foretold, Present, Report};
use pages_checkpoint::{advance, forecast, format, page_out, snapshot, start};
use pages_read::{key, read};
use pages_write::{rescind, write};
use record::store::Store;

// The version of this interface: the record's form, the answers and the calls. A program compares it with the one of
// the header that it was compiled with.
pub fn lane_version() -> u32
    ensures { result ≡ version }
{
    3
}

// Format takes no record.
pub fn lane_format(card: &mut [u8], area: usize, ranges: &[u32]) -> u32
    ensures { FormatKept area ranges.now card.old (answered (numbered result)) card.new }
{
    number::of(format::format(card, area, ranges))
}

// Start does not read the record that it is lent.
pub fn lane_start(s: &mut Store, card: &[u8], memory: &[u8]) -> u32
    ensures { Linked (call.start memory.now) (lent zero_store memory.now card.now) (number result) (lent s.new memory.now card.now) }
{
    let d = start::start(card, memory);
    *s = d.store;
    number::of(d.answer)
}

pub fn lane_key<'s, 'a>(s: &'s mut Store, card: &'a [u8], memory: &'a [u8], oid: u32) -> Present
    ensures linked { Linked (call.on oid call.key) (lent s.old memory.now card.now) (present result.refusal result.count) (lent s.new memory.now card.now) }
    ensures same { s.new ≡ s.old }
{
    key(s, card, memory, oid).into()
}

pub fn lane_read<'s, 'a, 'b>(
    s: &'s mut Store,
    card: &'a [u8],
    memory: &'a [u8],
    oid: u32,
    count: u32,
    buffer: &'b mut [u8],
) -> u32
    ensures linked { Linked (call.on oid (call.read count buffer.old)) (lent s.old memory.now card.now) (filling result buffer.new)
        (lent s.new memory.now card.now) }
    ensures same { s.new ≡ s.old }
{
    number::of(read::read(*s, card, memory, oid, count, buffer))
}

pub fn lane_write(
    s: &mut Store,
    card: &[u8],
    memory: &mut [u8],
    oid: u32,
    count: u32,
    at: usize,
    new: &[u8],
) -> u32
    ensures { Linked (call.on oid (call.write count at new.now)) (lent s.old memory.old card.now) (number result) (lent s.new memory.new card.now) }
{
    let d = write::write(*s, card, memory, oid, count, at, new);
    *s = d.store;
    number::of(d.answer)
}

pub fn lane_rescind(s: &mut Store, card: &[u8], memory: &mut [u8], oid: u32, count: u32) -> u32
    ensures { Linked (call.on oid (call.rescind count)) (lent s.old memory.old card.now) (number result) (lent s.new memory.new card.now) }
{
    let d = rescind::rescind(*s, card, memory, oid, count);
    *s = d.store;
    number::of(d.answer)
}

pub fn lane_snapshot(s: &mut Store, card: &[u8], memory: &[u8]) -> u32
    ensures { Linked call.snapshot (lent s.old memory.now card.now) (number result) (lent s.new memory.now card.now) }
{
    let d = snapshot::snapshot(*s, card, memory);
    *s = d.store;
    number::of(d.answer)
}

pub fn lane_page_out(s: &mut Store, card: &mut [u8], memory: &[u8]) -> Report
    ensures { Linked call.page_out (lent s.old memory.now card.old) (report result.kind result.refusal result.block) (lent s.new memory.now card.new) }
{
    page_out(s, card, memory).into()
}

pub fn lane_advance(s: &mut Store, card: &mut [u8], memory: &[u8]) -> Report
    ensures { Linked call.advance (lent s.old memory.now card.old) (report result.kind result.refusal result.block) (lent s.new memory.now card.new) }
{
    advance(s, card, memory).into()
}

pub fn lane_forecast(s: &mut Store, card: &[u8], memory: &[u8]) -> Foretold
    ensures linked { Linked call.forecast (lent s.old memory.now card.now) (foretelling result.refusal result.advances) (lent s.new memory.now card.now) }
    ensures same { s.new ≡ s.old }
{
    forecast(s, card, memory).into()
}

pub fn key<'s, 'a>(
    s: &'s mut Store,
    card: &'a [u8],
    memory: &'a [u8],
    oid: u32,
) -> Result<u32, Refusal>
    ensures kept { Kept (call.on oid call.key) (lent s.old memory.now card.now) (counted_as result) (lent s.new memory.now card.now) }
    ensures same { s.new ≡ s.old }
{
    key::key(*s, card, memory, oid)
}

pub fn page_out(s: &mut Store, card: &mut [u8], memory: &[u8]) -> Result<Advance, Refusal>
    ensures { Kept call.page_out (lent s.old memory.now card.old) (answered (reported result)) (lent s.new memory.now card.new) }
{
    let d = page_out::page_out(*s, card, memory);
    *s = d.store;
    d.answer
}

pub fn advance(s: &mut Store, card: &mut [u8], memory: &[u8]) -> Result<Advance, Refusal>
    ensures { Kept call.advance (lent s.old memory.now card.old) (answered (reported result)) (lent s.new memory.now card.new) }
{
    let d = advance::advance(*s, card, memory);
    *s = d.store;
    d.answer
}

pub fn forecast(s: &mut Store, card: &[u8], memory: &[u8]) -> Result<u32, Refusal>
    ensures kept { Kept call.forecast (lent s.old memory.now card.now) (foretold_as result) (lent s.new memory.now card.now) }
    ensures same { s.new ≡ s.old }
{
    forecast::forecast(*s, card, memory)
}
