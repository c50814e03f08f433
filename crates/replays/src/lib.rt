// Captured frames replayed through a table, and the record of what a switch would emit.
#![tactic(auto)]

ghost use Rattle.std.specs.Prelude.{◌≡◌, ◌*◌, ◌≤◌, length, IfOk, MatchResult};
ghost use Rattle.faults.specs.declared.layers.TableFault.TheVariants.{Illegal, Full};
ghost use Rattle.tables.specs.Checking.{Stops};
ghost use Rattle.tables.specs.Emits.{sent_length};
ghost use Rattle.tables.specs.Rows.{LegalTable};
ghost use Rattle.replays.specs.Bytes.{words_of};
ghost use Rattle.replays.specs.Memory.{wanted, enough, SaysRecord, Replayed, LinesLength};
ghost use Rattle.replays.specs.Replays.{SaysFrame, SaysFrames, title, kind_ops};
ghost use Rattle.pages.specs.Pages.{Says};

mod emitted;
mod kind;
mod short;
mod words;

pub use emitted::Emitted;
use faults::{Shown, TableFault};
use frames::WIDTH;
pub use kind::{Kind, UnknownKind};
use lines::{Line, Table};
use pages::{Page, Print};
pub use short::Short;
use tables::{CheckedTable, SENT_WORDS, check_table};
use weights::{Cost, Reach, WeightKind};
use words::{count_words, read_words};

// What becomes of one frame. What it becomes needs room.
fn print_frame<K: WeightKind>(
    page: &mut Page<'_>,
    table: &CheckedTable<'_, K>,
    room: &mut [u32],
    frame: &[u32],
)
    ensures { SaysFrame K.WeightKind.ops table.now.words.now (length room.old) frame.now page.old page.new }
{
    let line = Line {
        title: "frame",
        words: frame,
    };
    line.print(page);
    match table.forward(frame, room) {
        Ok(count) => Emitted(&room[..count]).print(page),
        Err(fault) => Shown::from(fault).print(page),
    }
}

// What becomes of each frame.
fn print_frames<K: WeightKind>(
    page: &mut Page<'_>,
    table: &CheckedTable<'_, K>,
    room: &mut [u32],
    frames: &[u32],
)
    ensures { SaysFrames K.WeightKind.ops table.now.words.now (length room.old) frames.now page.old page.new }
{
    for frame in frames.chunks(WIDTH) {
        print_frame(page, table, room, frame);
    }
}

// The lines of a table, where it is to be titled.
fn print_title(page: &mut Page<'_>, table: &[u32], titled: bool)
    ensures { Says page.old (title titled table.now) page.new }
{
    if titled {
        Table(table).print(page);
    }
}

// There is too little room for the frames that a table emits.
#[derive(Clone, Copy)]
struct NoRoom;

// The record of frames that go through a table of the kind K, or their lines alone, both as words, by what the check said of the
// table. Only a legal table needs the room.
fn print_replay<K: WeightKind>(
    page: &mut Page<'_>,
    checked: Result<CheckedTable<'_, K>, TableFault>,
    titled: bool,
    table: &[u32],
    room: &mut [u32],
    frames: &[u32],
) -> Result<(), NoRoom>
    requires { MatchResult checked (λ t. (t.words.now ≡ table.now) × LegalTable K.WeightKind.ops table.now) (λ e. elim e [ Illegal i ↦ Stops K.WeightKind.ops table.now i | Full ↦ ⊥ ]) }
    ensures { SaysRecord K.WeightKind.ops (title titled table.now) table.now frames.now (length table.now * sent_length) (length room.old) page.old result page.new }
{
    match checked {
        Ok(legal) => {
            // Each word of a table tells of one emission at most.
            if room.len() / SENT_WORDS < table.len() {
                return Err(NoRoom);
            }
            let room = &mut room[..table.len() * SENT_WORDS];
            print_title(page, table, titled);
            print_frames(page, &legal, room, frames)
        }
        Err(fault) => Shown::from(fault).print(page),
    }
    Ok(())
}

// The same of a table of any kind, both as bytes.
fn print_bytes(
    page: &mut Page<'_>,
    kind: Kind,
    titled: bool,
    table: &[u8],
    frames: &[u8],
    memory: &mut [u32],
) -> Result<(), NoRoom>
    requires { wanted table.now frames.now ≤ length memory.old }
    ensures { SaysRecord (kind_ops kind) (title titled (words_of table.now)) (words_of table.now) (words_of frames.now) (enough table.now frames.now) (length memory.old) page.old result page.new }
{
    let (table_words, memory) = memory.split_at_mut(count_words(table));
    let (frame_words, room) = memory.split_at_mut(count_words(frames));
    read_words(table, table_words);
    read_words(frames, frame_words);
    // A kind of weights is a type and no value: so the value picks the instance here.
    match kind {
        Kind::Reach => {
            let checked = check_table::<Reach>(table_words);
            print_replay(page, checked, titled, table_words, room, frame_words)
        }
        Kind::Cost => {
            let checked = check_table::<Cost>(table_words);
            print_replay(page, checked, titled, table_words, room, frame_words)
        }
    }
}

// How many words a table and frames take, both as bytes. So many are enough for a table that is not legal.
pub fn words_wanted(table: &[u8], frames: &[u8]) -> usize
    ensures { result ≡ wanted table.now frames.now }
{
    count_words(table) + count_words(frames)
}

// The record of frames that go through a table of a kind, both as bytes, in lent memory, and how many bytes it has; or how much
// more memory would be enough. The words are for what happens on the way.
pub fn replay(
    kind: Kind,
    table: &[u8],
    frames: &[u8],
    words: &mut [u32],
    out: &mut [u8],
) -> Result<usize, Short>
    ensures record { Replayed (kind_ops kind) table.now frames.now (length words.old) out.old result out.new }
    ensures within { IfOk result (λ n. n ≤ length out.old) }
{
    let enough = count_words(table).saturating_mul(SENT_WORDS + 1);
    let enough = enough.saturating_add(count_words(frames));
    let wanted = words_wanted(table, frames);
    if words.len() < wanted {
        return Err(Short::Words(enough));
    }
    let mut page = Page::new(out);
    match print_bytes(&mut page, kind, true, table, frames, words) {
        Ok(()) => match page.finish() {
            Ok(length) => Ok(length),
            Err(length) => Err(Short::Bytes(length)),
        },
        Err(NoRoom) => Err(Short::Words(enough)),
    }
}

// How long that record is without the lines of the table: as long as those of the frames, or as the one line of a table that is
// refused. Where there are too few words for a replay, it is 0.
pub fn lines_length(kind: Kind, table: &[u8], frames: &[u8], words: &mut [u32]) -> usize
    ensures { LinesLength (kind_ops kind) table.now frames.now (length words.old) result }
{
    if words.len() < words_wanted(table, frames) {
        return 0;
    }
    let mut page = Page::new(&mut []);
    match print_bytes(&mut page, kind, false, table, frames, words) {
        Ok(()) => match page.finish() {
            Ok(length) => length,
            Err(length) => length,
        },
        Err(NoRoom) => 0,
    }
}
