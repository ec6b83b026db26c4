// The header.

// What a header says. `ranges` has the numbers of 8 ranges, of which the first 2 × count matter: an array with its
// length beside it, since there is no heap and the count may be any number until question 5 is asked.
#[repr(C)]
#[derive(Clone, Copy)]
pub struct Header {
    pub layout: u32,
    pub commit: u32,
    pub trailer: usize,
    pub area: usize,
    pub count: usize,
    pub ranges: [u32; 16],
}
