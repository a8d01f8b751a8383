// Whole numbers, keys, powers, ratios and pitches for C: include/telbijan.h declares the functions.
#![tactic(auto)]

pub mod divisions;
pub mod keys;
pub mod pitches;
pub mod powers_of_two;
