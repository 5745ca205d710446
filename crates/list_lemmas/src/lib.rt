//! Lemmas on lists, on places and items in them, on tests and on orders, that crates above cite. They speak of nothing but
//! std's words. There is no code here: what is proved stands in `proofs/`, and is imported from there.
#![tactic(auto)]
