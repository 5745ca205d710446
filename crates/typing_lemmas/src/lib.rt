//! Lemmas on the definitions of `jk_model_typing` that crates above cite: scopes, links, types of values,
//! stores into locals. There is no code here: what is proved stands in `proofs/`, and is imported from there.
#![tactic(auto)]
