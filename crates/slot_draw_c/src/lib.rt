// The static library for C and Rust: each function of slot_draw under its own name, with its promise.
//
// Every function takes any numbers, any floats, and slices of any length and content. include/slot_draw.h declares them.
#![tactic(auto)]

mod floats;
mod pool;
mod table;
mod tree;
