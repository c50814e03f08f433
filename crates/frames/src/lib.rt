// Frames: read from words, asked and changed by field, compared, and written as words.
#![tactic(auto)]

ghost use Rattle.std.specs.Prelude.{◌≡◌, ℕ, ◌<◌, List, length, MatchResult, slice_index, slice_set};
ghost use Rattle.format.specs.Fields.{fields, LegalValue};
ghost use Rattle.format.specs.Words.{word, value_of};
ghost use Rattle.faults.specs.declared.layers.FrameFault.TheVariants.{BadWord};
ghost use Rattle.frames.specs.Frames.{FrameValues, FieldWord, NoFrame, FrameRead, frame_words, before};

mod frame;

use faults::FrameFault;
use format::{FIELD_UNIT, FIELDS, KIND_UNIT, Setting, Word};
pub use frame::{Frame, WIDTH};
use std::array;

// The kind of a frame's words. A number, since an enum of one kind would say no more.
pub const FRAME_KIND: u32 = 9;

// The value in a frame's word, which has to be that of the field at this place.
fn field_value(place: usize, bits: u32) -> Result<u32, FrameFault>
    requires { place < fields }
    ensures { MatchResult result (λ n. (bits ≡ word 9 place n) × LegalValue place n) (λ e. (e ≡ BadWord place) × (FieldWord place bits → ⊥)) }
{
    let word = Word::from(bits);
    if word.kind != FRAME_KIND || word.field as usize != place {
        return Err(FrameFault::BadWord(place));
    }
    let setting = Setting::new(word.field, word.value).ok_or(FrameFault::BadWord(place))?;
    Ok(setting.value)
}

impl Frame {
    // The frame of these words, one for each field. A loop, since `array::try_from_fn` does not promise the first fault.
    fn of(words: [u32; WIDTH]) -> Result<Frame, FrameFault>
        ensures { MatchResult result (λ s. words ≡ frame_words s.values) (λ e. NoFrame e words) }
    {
        let mut values = words;
        for (place, value) in values.iter_mut().enumerate() {
            *value = field_value(place, *value)?;
        }
        Ok(Frame { values })
    }

    // The value of a field, or 0 where there is no such field.
    pub fn value(&self, field: u32) -> u32
        ensures { result ≡ slice_index self.now.values field }
    {
        self.values.get(field as usize).copied().unwrap_or(0)
    }

    // The frame with one field replaced.
    pub fn with(self, setting: Setting) -> Frame
        ensures { result.values ≡ slice_set self.values setting.field setting.value }
    {
        let mut values = self.values;
        values[setting.field as usize] = setting.value;
        Frame { values }
    }

    // Whether this frame comes before another, by field 0 first: the derived order, with what it promises here.
    pub fn before(&self, other: &Frame) -> bool
        ensures { result ≡ before self.now.values other.now.values }
    {
        self < other
    }
}

impl TryFrom<&[u32]> for Frame {
    type Error = FrameFault;

    ghost try_from_gives = { λ words result. FrameRead words.now result };

    // The frame of these words, which are eight by name, a rule of the project.
    fn try_from(words: &[u32]) -> Result<Frame, FrameFault> {
        let [a, b, c, d, e, f, g, h] = words else {
            return Err(FrameFault::Length);
        };
        Frame::of([*a, *b, *c, *d, *e, *f, *g, *h])
    }
}

impl From<&Frame> for [u32; WIDTH] {
    ghost from_gives = { λ frame words. words ≡ frame_words frame.now.values };

    // The frame's words.
    fn from(frame: &Frame) -> [u32; WIDTH] {
        array::from_fn(|field| {
            FRAME_KIND * KIND_UNIT + field as u32 * FIELD_UNIT + frame.values[field]
        })
    }
}
