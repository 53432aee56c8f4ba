//! What it means to do the things of a list one after the other: definitions and lemmas alone.
#![tactic(auto)]
