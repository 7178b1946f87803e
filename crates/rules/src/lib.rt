#![tactic(auto)]

// The rules of document 01 as definitions over lists of bytes (specs/) and the laws about them (proofs/). There is no code here: this crate is what a reader must believe, and every promise of the other crates cites it.
