// The words of a case.

#[derive(Clone, Copy, PartialEq, Eq, Debug)]
pub enum Word {
    Fill,
    Format,
    Put,
    Get,
    PageOut,
    Advance,
    Start,
    Snapshot,
    Migrated,
    Forecast,
    Key,
    Read,
    First,
    Write,
    Rescind,
    Blank,
}

impl Word {
    // A word as a step holds it, by its last seven letters; none where it is no other, as `tell`.
    pub fn named(text: &[u8]) -> Option<Word> {
        match text {
            b"fill" => Some(Word::Fill),
            b"format" => Some(Word::Format),
            b"put" => Some(Word::Put),
            b"get" => Some(Word::Get),
            b"age-out" => Some(Word::PageOut),
            b"advance" => Some(Word::Advance),
            b"start" => Some(Word::Start),
            b"napshot" => Some(Word::Snapshot),
            b"igrated" => Some(Word::Migrated),
            b"orecast" => Some(Word::Forecast),
            b"key" => Some(Word::Key),
            b"read" => Some(Word::Read),
            b"first" => Some(Word::First),
            b"write" => Some(Word::Write),
            b"rescind" => Some(Word::Rescind),
            b"blank" => Some(Word::Blank),
            _ => None,
        }
    }
}
