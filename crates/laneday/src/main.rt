// A day of a lane over one record, which is lent to each call: two payments and a tag handed in, a page-out, a
// snapshot, advances until none is due, a power-up, and what is found. A line for each call: its name, and the number
// that it answers or what it tells. The record is handed on by value, as `lend` takes it and gives it back.
#![tactic(auto)]

use card::refusal::Refusal;
use frames::answer::Advance;
use lane::{call, lend};
use record::store::Store;
use record_list::store;
use std::io;

fn print_line(rt: &impl Print, name: &str, n: u32) -> io::Result<()> {
    println!(rt; "{name} {n}")
}

// What was written, by its letter, and the block; or the refusal's number.
fn print_advance(rt: &impl Print, answer: Result<Advance, Refusal>) -> io::Result<()> {
    let (letter, block) = match answer {
        Ok(Advance::P(block)) => ('P', block),
        Ok(Advance::D(block)) => ('D', block),
        Ok(Advance::T(block)) => ('T', block),
        Ok(Advance::M(block)) => ('M', block),
        Ok(Advance::H(block)) => ('H', block),
        Ok(Advance::F(block)) => ('F', block),
        Err(no) => return print_line(rt, "advance", no.into()),
    };
    println!(rt; "{letter} {block}")
}

// Advances until one is refused: a hundred turns are more than a card of this size can need.
fn advance_all(rt: &impl Print, s: Store, card: &mut [u8], memory: &[u8]) -> io::Result<Store> {
    let mut store = s;
    for _ in 0..100 {
        let advanced = lend::advance(store, card, memory);
        store = advanced.store;
        print_advance(rt, advanced.answer)?;
        if advanced.answer.is_err() {
            break;
        }
    }
    Ok(store)
}

// Prints how many advances are left until what is marked is safe.
fn forecast(rt: &impl Print, s: Store, card: &[u8], memory: &[u8]) -> io::Result<Store> {
    let foretold = lend::forecast(s, card, memory);
    match foretold.answer {
        Ok(n) => print_line(rt, "forecast", n)?,
        Err(no) => print_line(rt, "refused", no.into())?,
    }
    Ok(foretold.store)
}

// Prints the count of a page, and the first byte that is read with that key.
fn show<'a>(
    rt: &impl Print,
    s: Store,
    card: &'a [u8],
    memory: &'a [u8],
    oid: u32,
) -> io::Result<Store> {
    let keyed = lend::key(s, card, memory, oid);
    match keyed.answer {
        Ok(count) => {
            print_line(rt, "count", count)?;
            let mut page = [0u8; 512];
            let read = lend::read(keyed.store, card, memory, oid, count, &mut page);
            print_line(rt, "byte", page[0].into())?;
            Ok(read.store)
        }
        Err(no) => {
            print_line(rt, "key", no.into())?;
            Ok(keyed.store)
        }
    }
}

// After a start a flush is due.
fn morning(rt: &impl Print, s: Store, card: &mut [u8], memory: &mut [u8]) -> io::Result<Store> {
    let started = lend::start(s, card, memory);
    print_line(rt, "start", started.answer)?;
    let flushed = lend::advance(started.store, card, memory);
    print_advance(rt, flushed.answer)?;
    let paid = lend::write(flushed.store, card, memory, 100, 0, 0, &[5]);
    print_line(rt, "write", paid.answer)?;
    let paid = lend::write(paid.store, card, memory, 101, 0, 0, &[7]);
    print_line(rt, "write", paid.answer)?;
    let returned = lend::rescind(paid.store, card, memory, 101, 0);
    print_line(rt, "rescind", returned.answer)?;
    let written = lend::page_out(returned.store, card, memory);
    print_advance(rt, written.answer)?;
    let marked = lend::snapshot(written.store, card, memory);
    print_line(rt, "snapshot", marked.answer)?;
    let store = forecast(rt, marked.store, card, memory)?;
    advance_all(rt, store, card, memory)
}

// After a power-up memory holds any bytes; start does not read the record that it is lent.
fn evening<'a>(rt: &impl Print, s: Store, card: &'a [u8], memory: &'a [u8]) -> io::Result<Store> {
    let started = lend::start(s, card, memory);
    print_line(rt, "start", started.answer)?;
    let store = show(rt, started.store, card, memory, 100)?;
    show(rt, store, card, memory, 101)
}

fn main(rt: HostRuntime) -> io::Result<()> {
    let mut card = [0u8; 10240];
    let mut memory = [0u8; 2048];
    print_line(&rt, "format", call::lane_format(&mut card, 16, &[100, 2]))?;
    let store = morning(&rt, store::zeros(), &mut card, &mut memory)?;
    evening(&rt, store, &card, &[255u8; 2048])?;
    Ok(())
}
