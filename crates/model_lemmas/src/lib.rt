//! Lemmas on the definitions of `jk_model` that crates above cite: names of classes, paths, texts, words and lines,
//! instructions, the bytes of class files, numbers of classes and domains. There is no code here: what is proved stands
//! in `proofs/`, and is imported from there.
#![tactic(auto)]
