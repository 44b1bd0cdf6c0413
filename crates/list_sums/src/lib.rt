//! Laws of sums over a list that is read and set at a place: what a sum becomes where one term is
//! replaced, cut in two or joined with another, and that terms are at most their sum.
//!
//! They serve the rules of `turnstile` and `worker_pool`, which weigh what all threads have in
//! their hands (`proofs/Sums.antt`). std says such laws by `get_or` below a length, where the rules
//! of atomic tables read a list by `get_elem?`. `proofs/Lent.antt` says what a vector is that was
//! lent to threads as a slice and came back. The crate has no code.
#![tactic(auto)]
