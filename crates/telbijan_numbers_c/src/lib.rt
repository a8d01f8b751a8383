// Whole numbers, keys, powers, ratios and pitches for C: include/telbijan.h declares the functions.
#![tactic(auto)]

mod divisions;
mod keys;
mod pitches;
mod powers_of_two;
