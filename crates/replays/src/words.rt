// The words that a file holds.
ghost use Rattle.std.specs.Prelude.{◌≡◌, ◌<◌, ◌≤◌, [], ◌∷◌, length};
ghost use Rattle.replays.specs.Bytes.{words_of};

use format::KIND_UNIT;

const WORD_BYTES: usize = 4;

// Stands for a last word of less than four bytes: neither a table nor a frame has a word of this kind, so no enum names it.
const BROKEN: u32 = 15 * KIND_UNIT;

// The word of four bytes, the most significant first. Fewer bytes are a broken one.
fn word_of(bytes: &[u8]) -> u32
    ensures { 0 < length bytes.now → length bytes.now ≤ 4 → words_of bytes.now ≡ result ∷ [] }
{
    match bytes {
        [a, b, c, d] => u32::from_be_bytes([*a, *b, *c, *d]),
        _ => BROKEN,
    }
}

// How many words these bytes are.
pub(crate) fn count_words(bytes: &[u8]) -> usize
    ensures { result ≡ length (words_of bytes.now) }
{
    bytes.len().div_ceil(WORD_BYTES)
}

// Writes the words of these bytes.
pub(crate) fn read_words(bytes: &[u8], words: &mut [u32])
    requires { length words.old ≡ length (words_of bytes.now) }
    ensures { words.new ≡ words_of bytes.now }
{
    let mut count = 0;
    for four in bytes.chunks(WORD_BYTES) {
        words[count] = word_of(four);
        count += 1;
    }
}
