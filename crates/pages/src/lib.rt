// The page layer: ten calls on a store of pages, each with its OID, count and zero flag. What they answer with and
// promise, and laws; demands 2 and 3 are stated and proved in this crate. The code is in `pages_read`, `pages_write`
// and `pages_checkpoint`. It rests on the frame layer's promise, and of the record it reads area and ranges, and which
// committed frames are home or passed over; the rest of the committed directory it hands on unread.
#![tactic(auto)]
