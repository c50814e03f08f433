// Frames as a line of a script names them.
ghost use Rattle.std.specs.Prelude.{◌≡◌, ℕ, ◌≤◌, List, length, take, Some, option_map};
ghost use Rattle.scripts.specs.Forwards.{words_said, setting_said, settings_said, zeros, frame_said};
ghost use Rattle.scripts.specs.Words.{words};

use super::cuts::cut;
use super::numbers::{field, number, word};
use super::words::first_word;
use format::Setting;
use frames::{Frame, WIDTH};

// How many words in hexadecimal digits a text has. As many as fit are written.
fn write_words(text: &[u8], out: &mut [u32]) -> Option<usize>
    ensures count { result ≡ option_map length (words_said (words text.now)) }
    ensures written { (ws : List ℕ) → words_said (words text.now) ≡ Some ws → length ws ≤ length out.old → take (length ws) out.new ≡ ws }
{
    let mut rest = text;
    let mut count = 0;
    while let Some((said, behind)) = first_word(rest) {
        let bits = word(said)?;
        if count < out.len() {
            out[count] = bits;
        }
        count += 1;
        rest = behind;
    }
    Some(count)
}

// A field and its value, as `pt=3`.
fn setting(said: &[u8]) -> Option<Setting>
    ensures { option_map (λ s. (s.field, s.value)) result ≡ setting_said said.now }
{
    let (name, digits) = cut(said, b'=');
    let field = field(name)?;
    Setting::new(field, number(digits?)?)
}

// The frame whose fields are 0. A function, so that a loop may begin with it.
fn blank() -> Frame
    ensures { result.values ≡ zeros }
{
    Frame { values: [0; WIDTH] }
}

// The frame whose fields a text sets.
fn settings(text: &[u8]) -> Option<Frame>
    ensures { option_map (λ s. s.values) result ≡ settings_said zeros (words text.now) }
{
    let mut frame = blank();
    let mut rest = text;
    while let Some((said, behind)) = first_word(rest) {
        frame = frame.with(setting(said)?);
        rest = behind;
    }
    Some(frame)
}

// How many words the frame has that a text names. They are written if they fit.
pub(crate) fn write_frame(text: &[u8], out: &mut [u32]) -> Option<usize>
    ensures count { result ≡ option_map length (frame_said (words text.now)) }
    ensures written { (ws : List ℕ) → frame_said (words text.now) ≡ Some ws → length ws ≤ length out.old → take (length ws) out.new ≡ ws }
{
    if let Some(count) = write_words(text, out) {
        return Some(count);
    }
    let words = <[u32; WIDTH]>::from(&settings(text)?);
    if WIDTH <= out.len() {
        out[..WIDTH].copy_from_slice(&words);
    }
    Some(WIDTH)
}
