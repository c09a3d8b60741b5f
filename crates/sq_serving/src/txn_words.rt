// The first words of the line of a job.
use arrayvec::ArrayVec;
use itoa::Buffer;

// The most bytes: `txn`, a space, and two numbers of up to 20 digits with a space between.
const MOST: usize = 45;

/// The first words of the line of a job, `txn P ID`.
pub(crate) fn txn_words(part: u64, id: u64) -> ArrayVec<u8, MOST> {
    let mut words = ArrayVec::new();
    add(&mut words, b"txn ");
    add(&mut words, Buffer::new().format(part).as_bytes());
    add(&mut words, b" ");
    add(&mut words, Buffer::new().format(id).as_bytes());
    words
}

// Adds bytes as long as there is room.
fn add(words: &mut ArrayVec<u8, MOST>, bytes: &[u8]) {
    for byte in bytes {
        if words.try_push(*byte).is_err() {
            return;
        }
    }
}
