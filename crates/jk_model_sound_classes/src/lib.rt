//! The definitions of sound classes, in `specs/`: which fields and methods the code of methods names, which typing a verified
//! method has, and what holds of all classes, and of what names mean in each domain, where every folder was accepted. There is
//! no code here.
#![tactic(auto)]
