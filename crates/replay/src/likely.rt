// How long a record is likely to be. Where a guess is enough, the record is made once; where it is not much more, memory is
// saved.
use replays::{Kind, lines_length};
use std::alloc::{AllocError, Global};

// A frame takes so many bytes in its file.
const FRAME: usize = 32;
// In the record its own line takes no more than so many.
const OWN_LINE: usize = 187;
// The line of a frame that is emitted for it takes no more.
const LINE: usize = 214;
// The head of a row begins so in its file.
const HEAD: u8 = 0xA;
// In the record a head takes no more than so many bytes.
const ROW: usize = 43;
// Any other word of a table takes no more.
const STEP: usize = 19;
// The two lines around the rows take no more.
const AROUND: usize = 64;
// Memory for all that the frames can become is lent up to so many bytes.
const SMALL: usize = 1 << 18;
// So few frames are not sampled, since a sample would be half of them or more.
const FEW: usize = 4;
// A table so many times as long as the frames is not checked once more for a sample.
const WIDE: usize = 64;
// So many frames are a good sample.
const SAMPLE: usize = 1024;
// Where there are too few frames for that, one in so many is taken, and two of very few.
const DENSE: usize = 32;
// One in so many is taken at least.
const SPARSE: usize = 64;
// Where a frame can take more bytes than so many, a sample that met one or two such frames tells little of the others.
const BROAD: usize = 1 << 15;
// It has to have as many bytes as so many of them, and so few frames that it hardly can are not sampled.
const SOME: usize = 4;

// The most bytes that a table's lines take.
fn table_most(table: &[u8]) -> usize {
    let (words, _) = table.as_chunks::<4>();
    let heads = words.iter().filter(|word| word[0] >> 4 == HEAD).count();
    let words = words.len().saturating_mul(STEP);
    heads
        .saturating_mul(ROW - STEP)
        .saturating_add(words)
        .saturating_add(AROUND)
}

// The most bytes that a frame and what it becomes take.
fn frame_most(table: &[u8]) -> usize {
    let (words, _) = table.as_chunks::<4>();
    let heads = words.iter().filter(|word| word[0] >> 4 == HEAD);
    let emitted = heads.map(|word| u32::from_be_bytes([0, word[1], word[2], word[3]]));
    let emitted = emitted.max().unwrap_or(0) as usize;
    emitted.saturating_add(1).saturating_mul(LINE)
}

// The next of a row of numbers whose upper bits are as good as random.
fn next_turn(turn: u64) -> u64 {
    turn.wrapping_mul(6_364_136_223_846_793_005).wrapping_add(1)
}

// A number that depends on all frames, so that the places of a sample are not known before all frames are.
fn seed(frames: &[u8]) -> u64 {
    let (words, _) = frames.as_chunks::<8>();
    let mut seed = 1;
    for word in words {
        // What stands in the upper bits counts for the lower ones too.
        seed = next_turn(seed ^ u64::from_le_bytes(*word)).rotate_left(32);
    }
    next_turn(seed)
}

// Some of the frames, from all over their file: one of each part of it, at a place as good as random, since captures repeat.
fn sample(heap: Global, frames: &[u8]) -> Result<Vec<u8>, AllocError> {
    let mut sample = Vec::new(heap);
    let mut turn = seed(frames);
    let count = frames.len() / FRAME;
    let width = (count / SAMPLE).clamp(DENSE, SPARSE);
    let width = width.min(count.div_ceil(2)).max(1);
    for part in frames.chunks(FRAME * width) {
        let at = FRAME * ((turn >> 33) as usize % (part.len() / FRAME).max(1));
        if let Some(frame) = part.get(at..at + FRAME) {
            sample.extend_from_slice(frame)?;
        }
        turn = next_turn(turn);
    }
    Ok(sample)
}

// How long lines may be of which a sample has so many bytes, where a frame can take `most`. By chance it can have fewer than the
// others: seldom by more than the root of the product of `most` and of the bytes of its emitted frames.
fn corrected(lines: usize, own: usize, most: usize) -> usize {
    let more = lines.saturating_sub(own);
    if most <= BROAD {
        return lines.saturating_add(more.saturating_mul(most).isqrt());
    }
    if more / SOME < most {
        return own;
    }
    lines
}

// How long the lines of the frames are likely to be, by a sample, where a frame can take `most` bytes.
fn sampled_lines(
    heap: Global,
    kind: Kind,
    table: &[u8],
    frames: &[u8],
    words: &mut [u32],
    most: usize,
) -> Result<usize, AllocError> {
    let some = sample(heap, frames)?;
    let lines = lines_length(kind, table, &some, words);
    let lines = corrected(lines, (some.len() / FRAME).saturating_mul(OWN_LINE), most);
    let lines = lines.saturating_mul(frames.len()) / some.len().max(1);
    Ok(lines.saturating_add(lines / 16))
}

// How long the lines of the frames are likely to be. Without a sample, little is lent: for few frames, and beside a long table as
// much as its file has.
fn likely_lines(
    heap: Global,
    kind: Kind,
    table: &[u8],
    frames: &[u8],
    words: &mut [u32],
) -> Result<usize, AllocError> {
    let most = frame_most(table);
    let count = frames.len().div_ceil(FRAME);
    let all = count.saturating_mul(most);
    if all <= SMALL || count <= FEW {
        return Ok(all.min(SMALL));
    }
    if table.len() / WIDE >= frames.len() {
        return Ok(all.min(table.len()));
    }
    // A kibibyte for each frame is lent in any case, as long as that is little.
    let least = frames.len().saturating_mul(FRAME).min(SMALL);
    if most > BROAD && count < SOME * DENSE {
        return Ok(least);
    }
    let lines = sampled_lines(heap, kind, table, frames, words, most)?;
    Ok(lines.max(least))
}

// How long the record is likely to be. The words are enough for the table and the frames.
pub(crate) fn likely_length(
    heap: Global,
    kind: Kind,
    table: &[u8],
    frames: &[u8],
    words: &mut [u32],
) -> Result<usize, AllocError> {
    let lines = likely_lines(heap, kind, table, frames, words)?;
    Ok(table_most(table).saturating_add(lines))
}
