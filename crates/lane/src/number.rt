// Answers in numbers, for C.
ghost use Rattle.std.specs.Prelude.{◌≡◌};
ghost use Rattle.card.specs.Refusal.{told};

use card::refusal::Refusal;

// 0 where the call is done, else the number of the question that was answered "no".
pub fn of(answer: Result<(), Refusal>) -> u32
    ensures { result ≡ told answer }
{
    match answer {
        Ok(()) => 0,
        Err(no) => no.into(),
    }
}
