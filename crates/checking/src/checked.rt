// A policy that was checked.
ghost use Rattle.std.specs.Prelude.{◌≡◌};
ghost use Rattle.checking.specs.Checking.{LegalWords};

use arrayvec::ArrayVec;
use format::WORDS_LIMIT;

// The words of a legal policy. Only `check` makes one.
#[derive(Drop)]
pub struct CheckedPolicy {
    words: ArrayVec<u32, WORDS_LIMIT>,
    ghost legal: { LegalWords words.items },
}

impl CheckedPolicy {
    pub(crate) fn of(words: ArrayVec<u32, WORDS_LIMIT>) -> CheckedPolicy
        requires { LegalWords words.items }
        ensures { result.words ≡ words }
    {
        CheckedPolicy { words }
    }

    // Its words, which are those of a legal policy. There is no `Deref` to a slice, and `policy.words()` says what the numbers are.
    pub fn words(&self) -> &[u32]
        ensures same { result.now ≡ self.now.words.items }
        ensures legal { LegalWords result.now }
    {
        self.words.as_slice()
    }
}
