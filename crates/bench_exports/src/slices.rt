// C functions for the root and the arc of each value of a slice, so that the programs in oracle/speed/leaves can measure the leaves without a call
// for each value.
ghost use Rattle.std.specs.Prelude.{◌≡◌, map, Float};
ghost use Rattle.square_root.specs.Root.{root_of};
ghost use Rattle.arc.specs.Arc.{arc_of};

// Replaces each value of the slice by what f returns for it, which is `of` of the value.
fn each<F: Fn(f32) -> f32>(values: &mut [f32], f: F)
    ghost of: { Float → Float }
    requires callable { F.IsAlwaysCallable f }
    requires returned { (x r : Float) → F.post f x r → r ≡ of x }
    ensures { values.new ≡ map of values.old }
{
    for v in values.iter_mut() {
        *v = f(*v);
    }
}

// Replaces each value of the slice by its square root.
#[unsafe(no_mangle)]
pub extern "C" fn sqrt_each(values: &mut [f32])
    ensures { values.new ≡ map root_of values.old }
{
    each(values, square_root::sqrt)
}

// Replaces each value of the slice by its arc.
#[unsafe(no_mangle)]
pub extern "C" fn arc_each(values: &mut [f32])
    ensures { values.new ≡ map arc_of values.old }
{
    each(values, arc::arc)
}
