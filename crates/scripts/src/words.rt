// A line cut into words.
ghost use Rattle.std.specs.Prelude.{◌≡◌, ◌+◌, ◌<◌, ◌≤◌, [], ◌∷◌, length, IfSome, MatchOption};
ghost use Rattle.std.specs.List.{prefix_len, position_or_len};
ghost use Rattle.scripts.specs.Words.{is_blank, words, unblanked, behind};

fn is_blank(byte: u8) -> bool
    ensures { result ≡ is_blank byte }
{
    matches!(byte, b'\t' | b'\r' | b' ')
}

// How many blanks come first.
fn blanks_len(bytes: &[u8]) -> usize
    ensures blanks { result ≡ prefix_len is_blank bytes.now }
    ensures most { result ≤ length bytes.now }
{
    bytes.iter().take_while(|b| is_blank(**b)).count()
}

// How many bytes come before the first blank.
fn word_len(bytes: &[u8]) -> usize
    ensures word { result ≡ position_or_len is_blank bytes.now }
    ensures most { result ≤ length bytes.now }
{
    bytes.iter().take_while(|b| !is_blank(**b)).count()
}

// What is left without the blanks in front.
pub(crate) fn unblanked(bytes: &[u8]) -> &[u8]
    ensures unblanked { result.now ≡ unblanked bytes.now }
    ensures shorter { length result.now ≤ length bytes.now }
{
    &bytes[blanks_len(bytes)..]
}

// The first word, and what comes behind it.
pub(crate) fn first_word(bytes: &[u8]) -> Option<(&[u8], &[u8])>
    ensures words { MatchOption result (words bytes.now ≡ []) (λ r. words bytes.now ≡ r.0.now ∷ words r.1.now) }
    ensures behind { IfSome result (λ r. r.1.now ≡ behind bytes.now) }
    ensures shorter { IfSome result (λ r. length r.0.now + length r.1.now ≤ length bytes.now) }
    ensures some { IfSome result (λ r. 0 < length r.0.now) }
{
    let rest = unblanked(bytes);
    let size = word_len(rest);
    if size == 0 {
        None
    } else {
        Some((&rest[..size], &rest[size..]))
    }
}
