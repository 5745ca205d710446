//! The definitions of what holds of one domain and of one segment at every moment, in `specs/`: each value is known and fits where it
//! stands, each frame fits its method's least typing, and the heap keeps within its quota. There is no code here.
#![tactic(auto)]
