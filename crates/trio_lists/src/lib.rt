//! Words on lists and on answers, and lemmas of them: membership, numbers that are new, what is gathered
//! from one after another. Definitions and proofs alone; nothing runs here.
#![tactic(auto)]
