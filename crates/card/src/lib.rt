// What stands on a card, and how it is read back: numbers, blocks, the ring of the checkpoint area, home ranges,
// allocation pots, header, directory and trailer, and the questions that start asks of a card. Types, definitions and
// laws; the code is in `card_blocks`, `card_places` and `card_checkpoint`.
#![tactic(auto)]

pub mod checkpoint;
pub mod directory;
pub mod header;
pub mod range;
pub mod refusal;
pub mod trailer;
