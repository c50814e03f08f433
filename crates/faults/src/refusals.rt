// What a refusal leaves in memory.
ghost use Rattle.std.specs.Prelude.{◌≡◌, length, replicate, MatchResult};

// Passes an answer on, and sets the memory to zero where the answer is a refusal: nothing half-written stays.
pub fn zeros_if_refused<T, E>(answer: Result<T, E>, memory: &mut [u32]) -> Result<T, E>
    ensures same { result ≡ answer }
    ensures memory { MatchResult result (λ _. memory.new ≡ memory.old) (λ _. memory.new ≡ replicate (length memory.old) 0) }
{
    // `inspect_err` with a closure that fills is not said to leave the memory alone at an `Ok`.
    if answer.is_err() {
        memory.fill(0);
    }
    answer
}
