// Directories and their entries.

// A frame, by its home block, and the area block that holds it.
#[repr(C)]
#[derive(Clone, Copy)]
pub struct Entry {
    pub frame: u32,
    pub block: u32,
}

// Entries in two arrays, of which the first `count` matter: each a frame and the place of its block, which is so many
// blocks on from the first of its generation. A generation's size is at most 256, so that a byte holds a place. It is
// part of the record that C lends, so its form is C's: two arrays and a count.
#[repr(C)]
#[derive(Clone, Copy, Default)]
pub struct Directory {
    pub count: usize,
    pub frames: [u16; 256],
    pub places: [u8; 256],
}
