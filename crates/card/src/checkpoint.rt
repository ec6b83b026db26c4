// What a card says of its committed generation.
use super::directory::Directory;
use super::header::Header;
use super::trailer::Trailer;

#[repr(C)]
#[derive(Clone, Copy)]
pub struct Checkpoint {
    pub header: Header,
    pub trailer: Trailer,
    pub directory: Directory,
}
