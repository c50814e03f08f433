// Which words are a legal policy.
ghost use Rattle.std.specs.Prelude.{◌≡◌, ◌≤◌, [], ◌∷◌, length, MatchResult};
ghost use Rattle.format.specs.Limits.{waiting_limit, words_limit};
ghost use Rattle.format.specs.PolicyWords.{bits_of, LegalWord};
ghost use Rattle.faults.specs.declared.layers.CheckFault.TheVariants.{BadWord, BadOperands, TooMany};
ghost use Rattle.checking.specs.Checking.{LegalWords, NoWord, Refused, Determined};
ghost use Rattle.checking.specs.Checked.{policy_words};
ghost use Rattle.checking.specs.Flags.{flags, Marks, Blocked};

use crate::checked::CheckedPolicy;
use crate::waiting::Waiting;
use arrayvec::ArrayVec;
use faults::CheckFault;
use format::{PolicyWord, WORDS_LIMIT};

impl Waiting {
    // `Default` cannot be derived over a ghost field, and written out it would be longer than this.
    fn none() -> Waiting
        ensures { flags result ≡ [] }
    {
        Waiting {
            predicates: ArrayVec::new(),
        }
    }

    // How many operands wait.
    fn len(&self) -> usize
        ensures { result ≡ length (flags self.now) }
    {
        self.predicates.len()
    }

    fn push(&mut self, predicate: bool, place: usize) -> Result<(), CheckFault>
        ensures { MatchResult result (λ _. flags self.new ≡ predicate ∷ flags self.old) (λ e. (e ≡ TooMany place) × (waiting_limit ≤ length (flags self.old))) }
    {
        self.predicates
            .try_push(predicate)
            .map_err(|_| CheckFault::TooMany(place))
    }

    fn pop(&mut self, place: usize) -> Result<bool, CheckFault>
        ensures { MatchResult result (λ b. flags self.old ≡ b ∷ flags self.new) (λ e. (e ≡ BadOperands place) × (flags self.old ≡ [])) }
    {
        self.predicates.pop().ok_or(CheckFault::BadOperands(place))
    }

    // The word at this place takes its operands and waits as an operand itself.
    fn accept(&mut self, word: PolicyWord, place: usize) -> Result<(), CheckFault>
        ensures { MatchResult result (λ _. Marks word (flags self.old) (flags self.new)) (Blocked word place (flags self.old)) }
    {
        match word {
            PolicyWord::Drop | PolicyWord::Pass | PolicyWord::Test(_) => self.push(true, place),
            PolicyWord::Set(_) | PolicyWord::Cost(_) => self.push(false, place),
            PolicyWord::Not => {
                if !self.pop(place)? {
                    return Err(CheckFault::NoPredicate(place));
                }
                self.push(true, place)
            }
            PolicyWord::Union | PolicyWord::Sequence => {
                let right = self.pop(place)?;
                let left = self.pop(place)?;
                self.push(left && right, place)
            }
            PolicyWord::Star => {
                self.pop(place)?;
                self.push(false, place)
            }
        }
    }
}

// Puts these words into empty memory, if they are not too many. From `try_from` the memory itself would come in a `Result` and be
// moved once more, which took 48 KiB more of stack.
fn keep(words: &[u32], memory: &mut ArrayVec<u32, WORDS_LIMIT>) -> Result<(), CheckFault>
    requires { memory.old.items ≡ [] }
    ensures { MatchResult result (λ _. (memory.new.items ≡ words.now) × (length words.now ≤ words_limit)) (Refused words.now) }
{
    memory
        .try_extend_from_slice(words)
        .map_err(|_| CheckFault::LongPolicy)
}

// The word of these bits, which stand at this place.
fn word_at(place: usize, bits: u32) -> Result<PolicyWord, CheckFault>
    ensures { MatchResult result (λ w. LegalWord w × (bits_of w ≡ bits)) (λ e. (e ≡ BadWord place) × NoWord bits) }
{
    PolicyWord::try_from(bits).map_err(|_| CheckFault::BadWord(place))
}

// The policy of these words, or why they are refused. As `TryFrom` it would be no plainer: `check(words)` says what is done.
#[tactic(auto, using(crate::proofs::Determinism::determined))]
pub fn check(words: &[u32]) -> Result<CheckedPolicy, CheckFault>
    ensures verdict { MatchResult result (λ c. (policy_words c ≡ words.now) × LegalWords words.now) (Refused words.now) }
    ensures determined { Determined words.now }
{
    let mut kept = ArrayVec::new();
    keep(words, &mut kept)?;
    let mut waiting = Waiting::none();
    for (place, bits) in words.iter().enumerate() {
        let word = word_at(place, *bits)?;
        waiting.accept(word, place)?;
    }
    if waiting.len() != 1 {
        return Err(CheckFault::BadOperands(words.len()));
    }
    Ok(CheckedPolicy::of(kept))
}
