// The whole run of document 01: a card of 11 blocks with an area of 8 and one page, one write, one snapshot, and a line
// for each advance that is done.
#![tactic(auto)]

use frames::answer::Advance;
use record::store::Store;
use std::io;

// What was written, by its letter, and the block.
fn written(answer: Advance) -> (char, usize) {
    match answer {
        Advance::P(block) => ('P', block),
        Advance::D(block) => ('D', block),
        Advance::T(block) => ('T', block),
        Advance::M(block) => ('M', block),
        Advance::H(block) => ('H', block),
        Advance::F(block) => ('F', block),
    }
}

// Advances until one is refused: a hundred turns are more than a card of this size can need.
fn advance_all(rt: &impl Print, s: Store, card: &mut [u8], memory: &[u8]) -> io::Result<()> {
    let mut store = s;
    for _ in 0..100 {
        let advanced = pages_checkpoint::advance::advance(store, card, memory);
        let Ok(answer) = advanced.answer else {
            break;
        };
        let (letter, block) = written(answer);
        println!(rt; "{letter} {block}")?;
        store = advanced.store;
    }
    Ok(())
}

fn main(rt: HostRuntime) -> io::Result<()> {
    let mut card = [0u8; 5632];
    let mut memory = [0u8; 2048];
    let _ = pages_checkpoint::format::format(&mut card, 8, &[100, 1]);
    let started = pages_checkpoint::start::start(&card, &memory);
    let written = pages_write::write::write(started.store, &card, &mut memory, 100, 0, 0, &[7]);
    let marked = pages_checkpoint::snapshot::snapshot(written.store, &card, &memory);
    advance_all(&rt, marked.store, &mut card, &memory)
}
