// The frames that a switch emits, as lines of a record.
ghost use Rattle.replays.specs.Replays.{emit_lines};

use lines::Line;
use pages::{Page, Print};
use tables::SENT_WORDS;

// The words of emitted frames.
#[derive(Clone, Copy)]
pub struct Emitted<'a>(pub &'a [u32]);

impl Print for Emitted<'_> {
    ghost output = { λ e. emit_lines e.0.now };

    fn print(&self, page: &mut Page<'_>) {
        let (frames, _) = self.0.as_chunks::<SENT_WORDS>();
        for words in frames {
            let line = Line {
                title: "emit",
                words,
            };
            line.print(page);
        }
    }
}
