// The place of an OID.

// Where a page stands: its block, the block of its pot, and its entry there.
#[repr(C)]
#[derive(Clone, Copy)]
pub struct Address {
    pub page: usize,
    pub pot: usize,
    pub entry: usize,
}
