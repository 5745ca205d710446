//! Lemmas on the definitions of `jk_model_classes` that crates above cite: items, texts and flags of class files, records
//! of members, what references and names find, and what stands above a class. There is no code here: what is proved
//! stands in `proofs/`, and is imported from there.
#![tactic(auto)]
