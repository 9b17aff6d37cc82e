// The calls on plain numbers: a thin function for each call, on numbers and lent slices. An answer is written into a lent
// array, its number first: 0, or that of the refusal. The crate slot_draw_c exports these functions to C and Rust.
//
// Every function takes any numbers, any floats, and slices of any length and content. include/slot_draw.h declares them.
#![tactic(auto)]

mod answer;
pub mod floats;
pub mod pool;
pub mod table;
pub mod tree;
