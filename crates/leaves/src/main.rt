// Writes the square roots and arcs of a few values, all by their bits: those of document 01's cases, and the roots of -0 and -1.
#![tactic(auto)]

use numeric::bits::{from_bits, to_bits};

// The f32 values whose roots are written, by their bits: 4, 2, -0 and -1.
const ROOTS: [u32; 4] = [0x4080_0000, 0x4000_0000, 0x8000_0000, 0xbf80_0000];

// The f32 values whose arcs are written, by their bits: 0 and 1.
const ARCS: [u32; 2] = [0, 0x3f80_0000];

// Writes for each of the f32 with these bits the name of a function, the bits, and the bits of what the function gives. A line that
// can't be written is left out.
fn show(rt: &impl Print, name: &str, inputs: &[u32], function: fn(f32) -> f32)
    requires { (x : _) → pre function x }
{
    for x in inputs {
        let r = to_bits(function(from_bits(*x)));
        let _ = println!(rt; "{name} of {x:08x} is {r:08x}");
    }
}

// Writes four roots and two arcs.
fn main(rt: HostRuntime) {
    show(&rt, "root", &ROOTS, square_root::sqrt);
    show(&rt, "arc", &ARCS, arc::arc);
}
