// What the words of a case do, over what is lent.
use card_blocks::number;
use record::store::Store;
use script::Step;

// Makes all bytes the same.
pub fn fill(bytes: &mut [u8], byte: u32) {
    bytes.fill((byte % 256) as u8);
}

// The numbers behind the first are those of ranges; without a first there is nothing to format.
pub fn format(card: &mut [u8], step: &Step<'_>) -> Option<u32> {
    match step.given() {
        [area, ranges @ ..] => Some(lane::call::lane_format(card, *area as usize, ranges)),
        [] => None,
    }
}

// Puts a number of the card, if it has one there.
pub fn put(card: &mut [u8], at: u32, n: u32) {
    let at = at as usize;
    if at + 4 <= card.len() {
        number::put_u32(card, at, n);
    }
}

// A number of the card, if it has one there.
pub fn get(card: &[u8], at: u32) -> Option<u32> {
    let at = at as usize;
    if card.len() < at + 4 {
        return None;
    }
    Some(number::get_u32(card, at))
}

// Read's number.
pub fn read<'s, 'a>(
    store: &'s mut Store,
    card: &'a [u8],
    memory: &'a [u8],
    oid: u32,
    count: u32,
) -> u32 {
    lane::call::lane_read(store, card, memory, oid, count, &mut [0u8; 512])
}

// The number that a page begins with; of a refused one all ones.
pub fn first<'s, 'a>(
    store: &'s mut Store,
    card: &'a [u8],
    memory: &'a [u8],
    oid: u32,
    count: u32,
) -> u32 {
    let mut page = [255u8; 512];
    lane::call::lane_read(store, card, memory, oid, count, &mut page);
    number::get_u32(&page, 0)
}

// Writes so many bytes, up to 512, all of them the same.
pub fn write(store: &mut Store, card: &[u8], memory: &mut [u8], step: &Step<'_>) -> u32 {
    let [oid, count, at, length, byte, ..] = step.numbers;
    let bytes = [(byte % 256) as u8; 512];
    let end = (length as usize).min(512);
    lane::call::lane_write(store, card, memory, oid, count, at as usize, &bytes[..end])
}
