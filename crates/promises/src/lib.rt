// Theorems over the definitions that the contracts cite, and no code: see proofs/ and docs/PROMISES.md.
#![tactic(auto)]
