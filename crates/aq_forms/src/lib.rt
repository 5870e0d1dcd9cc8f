//! Each form of a statement, as it is printed, is read as itself.
#![tactic(auto)]
