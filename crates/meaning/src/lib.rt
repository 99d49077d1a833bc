// No code: this crate is its definitions (specs/), which a reader has to believe, and their laws (proofs/), which the prover has checked.
#![tactic(auto)]
