//! The history of a run of calls, and the law that every run keeps.
#![tactic(auto)]
