// What the calls and their parts hand back.
use record::store::Store;

// Of a call that takes the record by value and hands it back beside its answer.
#[derive(Clone, Copy)]
pub struct Done<A> {
    pub answer: A,
    pub store: Store,
}

// What advance or page-out wrote, by document 01's letters, each with its block: a waiting page, a directory block, the
// trailer, a migrated frame, the header; or a flush, with block 0.
#[derive(Clone, Copy)]
pub enum Advance {
    P(usize),
    D(usize),
    T(usize),
    M(usize),
    H(usize),
    F(usize),
}

// A memory frame, or a block of the card.
#[derive(Clone, Copy)]
pub enum Place {
    Memory(usize),
    Card(usize),
}

// How many new places and new entries frames need.
#[derive(Clone, Copy)]
pub struct Need {
    pub places: usize,
    pub entries: usize,
}
