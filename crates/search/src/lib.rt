// The words that readers' definitions are made of, and their laws: see specs/ and proofs/. No code.
#![tactic(auto)]
