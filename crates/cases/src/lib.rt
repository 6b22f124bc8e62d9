// Document 01's cases, and what its replies show of the definitions: see specs/ and proofs/. No code.
#![tactic(auto)]
