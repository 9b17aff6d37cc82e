// The example of the README: a tree is made, changed and drawn from.
#![tactic(auto)]

use refusal::Refusal;
use std::io;

// A tree of three slots gets a fourth, and two words draw a slot.
fn drawn_slot(store: &mut [u64]) -> Result<usize, Refusal> {
    let count = weighted_tree::new(store, &[72, 18, 128])?; // 3
    let count = weighted_tree::push(store, count, 32)?; // 4
    let words = [0x9e37_79b9_7f4a_7c15, 3];
    weighted_tree::draw(store, count, &words).outcome
}

fn main(rt: HostRuntime) -> io::Result<()> {
    let mut store = [0; 8];
    if let Ok(slot) = drawn_slot(&mut store) {
        println!(rt; "{slot}")?; // 0
    }
    if let Err(refusal) = weighted_tree::get(&store, 4, 9) {
        println!(rt; "{}", refusal.number())?; // 8, a bad index
    }
    Ok(())
}
