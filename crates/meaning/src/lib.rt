#![tactic(auto)]

// What policies mean, and diagrams that tell whether two policies mean the same: definitions and proofs only.
