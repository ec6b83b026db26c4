// The record: what the store knows between calls.
use card::directory::Directory;

// The card's size, A, and the ranges: first OID and number of pages of each in turn, of which the first 2 × count
// matter. Here and below arrays have their lengths beside them, and a phase is a number, since C has the record's form
// (include/lane.h) and there is no heap.
#[repr(C)]
#[derive(Clone, Copy, Default)]
pub struct Geometry {
    pub blocks: usize,
    pub area: usize,
    pub count: usize,
    pub ranges: [u32; 16],
}

// The pending or the current generation: e entries by rising frame, each a frame and the last place that it took; p
// places taken; places put down. Place i is the block i on from the generation's first: a generation's size is at
// most 256, so that a byte holds its places. A frame waits where its place is not down.
#[repr(C)]
#[derive(Clone, Copy, Default)]
pub struct Changes {
    pub count: usize,
    pub taken: usize,
    pub down: usize,
    pub frames: [u16; 256],
    pub places: [u8; 256],
}

// `frames` is the number of memory frames. Those that wait stand in them one after the other from `head` on, the
// pending ones first; after the last comes the first. `phase` tells how flushes stand: 0, writing; 1, flushed for the
// header write; 2, the flush after a header write or a start is owed. `first`, `pages` and `committed` are the
// committed generation's first block, its p, and its directory, by rising frame as the others. `migrated` counts
// committed entries copied home or passed over, `tail` the pending directory's and trailer's blocks that are down.
// There is no gap between the fields: a record that is put together anew from the same fields has the same bytes.
#[repr(C)]
#[derive(Clone, Copy, Default)]
pub struct Store {
    pub frames: usize,
    pub head: usize,
    pub geometry: Geometry,
    pub commit: u32,
    pub phase: u32,
    pub first: usize,
    pub pages: usize,
    pub committed: Directory,
    pub migrated: usize,
    pub pending: Changes,
    pub tail: usize,
    pub current: Changes,
}
