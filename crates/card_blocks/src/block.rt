// Blocks of a card: 512 bytes, lent as parts that start inside the card.
ghost use Rattle.std.specs.Prelude.{◌≡◌, ◌+◌, ◌*◌, ◌≤◌, length};
ghost use Rattle.card.specs.Bytes.{zeros};
ghost use Rattle.card.specs.Block.{block_at, put_block, whole};

// An empty frame.
#[tactic(auto, unfolding(card::specs::Bytes::zeros))]
pub fn empty() -> [u8; 512]
    ensures { result ≡ zeros }
{
    [0; 512]
}

// Is a length that of whole blocks, low to high of them?
#[tactic(auto, unfolding(card::specs::Block::whole))]
pub fn is_whole(low: usize, high: usize, len: usize) -> bool
    ensures { result ≡ whole low high len }
{
    len % 512 == 0 && low <= len / 512 && len / 512 <= high
}

// Block n, for reading: a part that starts inside the card.
pub fn at(card: &[u8], n: usize) -> &[u8; 512]
    requires { 512 * n + 512 ≤ length card.now }
    ensures { result.now ≡ block_at card.now n }
{
    card[512 * n..512 * n + 512].try_into().unwrap()
}

// Writes block n: it is lent as a mutable part.
pub fn put(card: &mut [u8], n: usize, bytes: &[u8; 512])
    requires { 512 * n + 512 ≤ length card.old }
    ensures { card.new ≡ put_block card.old n bytes.now }
{
    card[512 * n..512 * n + 512].copy_from_slice(bytes);
}

// Copies one block of the card to another.
pub fn copy(card: &mut [u8], from: usize, to: usize)
    requires from { 512 * from + 512 ≤ length card.old }
    requires to { 512 * to + 512 ≤ length card.old }
    ensures { card.new ≡ put_block card.old to (block_at card.old from) }
{
    let bytes = *at(card, from);
    put(card, to, &bytes);
}
