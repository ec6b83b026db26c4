// Answers in numbers, for C: an exported function hands back no enum.
ghost use Rattle.std.specs.Prelude.{◌≡◌};
ghost use Rattle.linked.specs.Linked.{present_of, foretold_of, report_of};

use card::refusal::Refusal;
use frames::answer::Advance;

// Key's: refusal 0 and the count, or the number of the question that was answered "no", and count 0.
#[repr(C)]
#[derive(Clone, Copy)]
pub struct Present {
    pub refusal: u32,
    pub count: u32,
}

// Forecast's: refusal 0 and how many advances, or the number of the question that was answered "no", and 0.
#[repr(C)]
#[derive(Clone, Copy)]
pub struct Foretold {
    pub refusal: u32,
    pub advances: u32,
}

// Page-out's and advance's: refusal 0, and kind 1 to 5 for P, D, T, M and H with the block written, or 6 for F with
// block 0; or the number of the question that was answered "no", kind 0 and block 0.
#[repr(C)]
#[derive(Clone, Copy)]
pub struct Report {
    pub kind: u32,
    pub refusal: u32,
    pub block: usize,
}

impl From<Result<u32, Refusal>> for Present {
    ghost from_gives = { λ a r. r ≡ present_of a };

    fn from(answer: Result<u32, Refusal>) -> Present {
        match answer {
            Ok(count) => Present { refusal: 0, count },
            Err(no) => Present {
                refusal: no.into(),
                count: 0,
            },
        }
    }
}

impl From<Result<u32, Refusal>> for Foretold {
    ghost from_gives = { λ a r. r ≡ foretold_of a };

    fn from(answer: Result<u32, Refusal>) -> Foretold {
        match answer {
            Ok(advances) => Foretold {
                refusal: 0,
                advances,
            },
            Err(no) => Foretold {
                refusal: no.into(),
                advances: 0,
            },
        }
    }
}

impl From<Result<Advance, Refusal>> for Report {
    ghost from_gives = { λ a r. r ≡ report_of a };

    fn from(answer: Result<Advance, Refusal>) -> Report {
        let (kind, block) = match answer {
            Ok(Advance::P(block)) => (1, block),
            Ok(Advance::D(block)) => (2, block),
            Ok(Advance::T(block)) => (3, block),
            Ok(Advance::M(block)) => (4, block),
            Ok(Advance::H(block)) => (5, block),
            Ok(Advance::F(block)) => (6, block),
            Err(no) => {
                return Report {
                    kind: 0,
                    refusal: no.into(),
                    block: 0,
                };
            }
        };
        Report {
            kind,
            refusal: 0,
            block,
        }
    }
}
