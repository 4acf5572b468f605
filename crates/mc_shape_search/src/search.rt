//! Searches in depth over lists of goals: the first way to meet all of them, and that it is found wherever there is one.
//!
//! A search knows nothing of what goals are, nor of the marks that say how each was met. The lemmas in `proofs` speak
//! of goals and marks of any type, which no contract can: the crates that search cite them.
