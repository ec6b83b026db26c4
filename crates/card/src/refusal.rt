// Why a call is refused: the question that is answered "no".
ghost use Rattle.std.specs.Prelude.{◌≡◌};
ghost use Rattle.card.specs.Refusal.{number};

// Each question by its number in the documents.
#[derive(Clone, Copy, Debug, PartialEq, Eq)]
pub enum Refusal {
    // Memory is not 4 to 64 whole frames, or not as long as the record says.
    Memory = 1,
    // The record does not hold together.
    Record = 2,
    // The card is not 11 to 65,536 whole blocks, or not as many as the record says.
    Card = 3,
    // The layout is not 1.
    Layout = 4,
    // Area and ranges do not keep the limits, or do not fill the card.
    Geometry = 5,
    // Commit number and trailer of the header do not fit one another.
    Commit = 6,
    // The trailer is not that of the header's generation.
    Trailer = 7,
    // The directory's entries do not rise, or are not of home frames or of the generation's blocks.
    Directory = 8,
    // The OID is below the first range or above the last.
    Outside = 9,
    // The key's count is not the present one.
    Count = 10,
    // The buffer is not 512 bytes, or what is written does not end within them.
    Length = 11,
    // The current generation would pass half the area.
    Half = 12,
    // The three generations would pass the area.
    Area = 13,
    // Memory has too few free frames.
    Full = 14,
    // The count is at its last value.
    LastCount = 15,
    // A snapshot is pending.
    Pending = 16,
    // No frame has changed since the last snapshot or start.
    Unchanged = 17,
    // The commit number is at its last value.
    LastCommit = 18,
    // No frame waits.
    NoneWaits = 19,
    // No kind of advance is due.
    NoneDue = 20,
    // The OID lies in a gap between two ranges.
    Gap = 21,
    // A flush is owed.
    FlushOwed = 28,
}

impl From<Refusal> for u32 {
    ghost from_gives = { λ r n. n ≡ number r };

    fn from(r: Refusal) -> u32 {
        r as u32
    }
}
