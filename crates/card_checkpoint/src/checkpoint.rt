// The committed generation of a card: asked about by questions 3 to 8, and read back.
ghost use Rattle.std.specs.Prelude.{◌<◌};
ghost use Rattle.card.specs.Checkpoint.{Recovered, HeaderPassed};

use super::{directory, header, trailer};
use card::checkpoint::Checkpoint;
use card::header::Header;
use card::refusal::Refusal;
use card::trailer::Trailer;
use card_blocks::block;
use card_blocks::ring::Ring;

// The generation that a header with a commit number above 0 names.
fn committed(card: &[u8], header: Header) -> Result<Checkpoint, Refusal>
    requires passed { HeaderPassed card.now header }
    requires some { 0 < header.commit }
    ensures { Recovered card.now result }
{
    let trailer = trailer::read(block::at(card, header.trailer));
    if !trailer::fits(&header, &trailer) {
        return Err(Refusal::Trailer);
    }
    let ring = Ring {
        area: header.area,
        first: trailer.first,
    };
    let blocks = card.len() / 512;
    let found = directory::read(card, blocks, ring, trailer.pages, trailer.entries);
    let directory = found.ok_or(Refusal::Directory)?;
    Ok(Checkpoint {
        header,
        trailer,
        directory,
    })
}

// Asks a card questions 3 to 8, and reads its header, trailer and directory once.
pub fn read(card: &[u8]) -> Result<Checkpoint, Refusal>
    ensures { Recovered card.now result }
{
    if !block::is_whole(11, 65536, card.len()) {
        return Err(Refusal::Card);
    }
    let header = header::read(block::at(card, 0));
    header::question(&header, card.len() / 512)?;
    if header.commit != 0 {
        return committed(card, header);
    }
    // Nothing is committed: the first generation starts at block 1.
    Ok(Checkpoint {
        header,
        trailer: Trailer {
            commit: 0,
            first: 1,
            pages: 0,
            entries: 0,
        },
        directory: directory::empty(),
    })
}
