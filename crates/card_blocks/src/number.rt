// Stored numbers: 32 bits, low byte first.
ghost use Rattle.std.specs.Prelude.{◌≡◌, ◌+◌, ◌*◌, ◌≤◌, length};
ghost use Rattle.card.specs.Bytes.{get_u32, put_u32, words, patch};

// The number in the four bytes from `at`.
pub fn get_u32(s: &[u8], at: usize) -> u32
    requires { at + 4 ≤ length s.now }
    ensures { result ≡ get_u32 s.now at }
{
    u32::from_le_bytes([s[at], s[at + 1], s[at + 2], s[at + 3]])
}

// Puts n into the four bytes from `at`.
pub fn put_u32(s: &mut [u8], at: usize, n: u32)
    requires { at + 4 ≤ length s.old }
    ensures { s.new ≡ put_u32 s.old at n }
{
    s[at..at + 4].copy_from_slice(&n.to_le_bytes());
}

// Puts numbers, one after the other, from `at` on.
pub fn put_words(s: &mut [u8], at: usize, numbers: &[u32])
    requires { at + 4 * length numbers.now ≤ length s.old }
    ensures { s.new ≡ patch s.old at (words numbers.now) }
{
    for (k, n) in numbers.iter().enumerate() {
        put_u32(s, at + 4 * k, *n);
    }
}
