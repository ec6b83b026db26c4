// The trailer of a generation.

// Commit number, first block, p and e of a generation.
#[repr(C)]
#[derive(Clone, Copy)]
pub struct Trailer {
    pub commit: u32,
    pub first: usize,
    pub pages: usize,
    pub entries: usize,
}
