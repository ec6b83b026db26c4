// Cases as text, for programs that make calls and print what is answered: a line for each case, its name, a colon and
// steps. A step is a word and the numbers behind it.
#![tactic(auto)]

ghost use Rattle.std.specs.Prelude.{◌≡◌, ◌≤◌, ◌<◌, length, take};

// A word and the numbers behind it. Of the word only the last seven letters are kept, which tell it from others; the
// first `count` numbers were given, the rest are 0. `next` is where the next step begins. There is no heap, so the
// numbers stand in an array.
#[derive(Clone, Copy)]
pub struct Step<'a> {
    pub word: &'a [u8],
    pub numbers: [u32; 20],
    pub count: usize,
    pub next: usize,
    pub ghost counted: { count ≤ 20 },
}

impl<'a> Step<'a> {
    pub fn given(&self) -> &[u32]
        ensures { result.now ≡ take self.now.count self.now.numbers }
    {
        &self.numbers[..self.count]
    }
}

// The first place from `at` on that has this byte, or the text's end.
pub fn until(text: &[u8], at: usize, stop: u8) -> usize
    requires { at ≤ length text.now }
    ensures from { at ≤ result }
    ensures within { result ≤ length text.now }
{
    match text[at..].iter().position(|b| *b == stop) {
        Some(further) => at + further,
        None => text.len(),
    }
}

// What tells a word from others: its last seven letters, from the first on that is not NUL.
fn ending(word: &[u8]) -> &[u8] {
    let last = &word[word.len().saturating_sub(7)..];
    match last.iter().position(|b| *b != 0) {
        Some(first) => &last[first..],
        None => &[],
    }
}

// The number that these bytes have as digits; of a long one the last 32 bits.
fn number(digits: &[u8]) -> u32 {
    digits.iter().fold(0u32, |n, b| {
        let digit = b.wrapping_sub(b'0');
        n.wrapping_mul(10).wrapping_add(u32::from(digit))
    })
}

// The step that begins at `at`; one space stands between a word or a number and the next.
pub fn read(text: &[u8], at: usize) -> Step<'_>
    requires { at ≤ length text.now }
    ensures further { at < result.next }
    ensures count { result.count ≤ 20 }
{
    let end = until(text, at, b' ');
    let mut numbers = [0u32; 20];
    let mut count = 0;
    let mut next = end + 1;
    for given in &mut numbers {
        if !text.get(next).is_some_and(|b| b.is_ascii_digit()) {
            break;
        }
        let stop = until(text, next, b' ');
        *given = number(&text[next..stop]);
        count += 1;
        next = stop + 1;
    }
    Step {
        word: ending(&text[at..end]),
        numbers,
        count,
        next,
    }
}
