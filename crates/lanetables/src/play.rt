// The steps of a case, one after the other.
ghost use Rattle.std.specs.Prelude.{◌≤◌};

use super::call;
use super::word::Word;
use card::refusal::Refusal;
use frames::answer::Advance;
use record::store::Store;
use record_list::store;
use script::Step;
use std::io;

// What a step tells: a number, 0 where there is none to tell, or what page-out or advance wrote.
#[derive(Clone, Copy)]
enum Told {
    Number(u32),
    Wrote(Advance),
}

fn wrote(answer: Result<Advance, Refusal>) -> Told {
    match answer {
        Ok(written) => Told::Wrote(written),
        Err(no) => Told::Number(no.into()),
    }
}

// Prints what the step before told.
fn tell(rt: &impl Print, told: Told) -> io::Result<()> {
    let (letter, block) = match told {
        Told::Number(n) => return print!(rt; " {n}"),
        Told::Wrote(Advance::P(block)) => ('P', block),
        Told::Wrote(Advance::D(block)) => ('D', block),
        Told::Wrote(Advance::T(block)) => ('T', block),
        Told::Wrote(Advance::M(block)) => ('M', block),
        Told::Wrote(Advance::H(block)) => ('H', block),
        Told::Wrote(Advance::F(block)) => ('F', block),
    };
    print!(rt; " {letter} {block}")
}

// A forecast that is refused tells more advances than any card takes.
fn act(word: Word, step: &Step<'_>, store: &mut Store, card: &mut [u8], memory: &mut [u8]) -> Told {
    let [first, second, ..] = step.numbers;
    let mut number = 0;
    match word {
        Word::PageOut => return wrote(lane::call::page_out(store, card, memory)),
        Word::Advance => return wrote(lane::call::advance(store, card, memory)),
        Word::Fill => call::fill(card, first),
        Word::Put => call::put(card, first, second),
        Word::Blank => call::fill(memory, first),
        Word::Migrated => store.migrated = first as usize,
        Word::Format => number = call::format(card, step).unwrap_or(0),
        Word::Get => number = call::get(card, first).unwrap_or(0),
        Word::Start => number = lane::call::lane_start(store, card, memory),
        Word::Snapshot => number = lane::call::lane_snapshot(store, card, memory),
        Word::Forecast => number = lane::call::forecast(store, card, memory).unwrap_or(u32::MAX),
        Word::Key => number = lane::call::lane_key(store, card, memory, first).refusal,
        Word::Read => number = call::read(store, card, memory, first, second),
        Word::First => number = call::first(store, card, memory, first, second),
        Word::Write => number = call::write(store, card, memory, step),
        Word::Rescind => number = lane::call::lane_rescind(store, card, memory, first, second),
    }
    Told::Number(number)
}

// From the step at `from` on. The reader of a step says where the next one begins.
fn act_all(
    rt: &impl Print,
    steps: &[u8],
    from: usize,
    card: &mut [u8],
    memory: &mut [u8],
) -> io::Result<()> {
    let mut store = store::zeros();
    let mut last = Told::Number(0);
    let mut at = from;
    while at < steps.len() {
        let step = script::read(steps, at);
        match Word::named(step.word) {
            Some(word) => last = act(word, &step, &mut store, card, memory),
            None => tell(rt, last)?,
        }
        at = step.next;
    }
    Ok(())
}

// So many times 512 bytes; none where that is more than there are.
fn size(n: u32, most: usize) -> usize
    ensures { result ≤ most }
{
    let size = 512 * n as usize;
    if size <= most { size } else { 0 }
}

// 516 blocks, apart from `play`, which then knows nothing of 264192 bytes but their number.
fn blocks() -> [u8; 264192] {
    [0u8; 264192]
}

// The first step says how many blocks and memory frames are lent, up to 516 and 65.
pub fn play(rt: &impl Print, steps: &[u8]) -> io::Result<()> {
    let mut card = blocks();
    let mut memory = [0u8; 33280];
    let step = script::read(steps, 0);
    let [blocks, frames, ..] = step.numbers;
    let end = size(blocks, card.len());
    let far = size(frames, memory.len());
    act_all(rt, steps, step.next, &mut card[..end], &mut memory[..far])
}
