// What holds of the columns of any reading, and so of the lists that callers keep: see specs/ and proofs/. No code.
#![tactic(auto)]
