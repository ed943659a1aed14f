// The passes as they are lent: a slice of triples of field of view, pixel scale and cosine of the separation. Question 5.
ghost use Rattle.std.specs.Prelude.{◌≡◌, ◌+◌, ◌*◌, ◌/◌, ◌≤◌, ◌<◌, length};
ghost use Rattle.settings.specs.Passes.{pass_fits, pass_at, first_fit, passes_fit};

// One pass: its field of view in radians, its pixel scale and the cosine of its separation.
#[derive(Clone, Copy)]
pub struct Pass {
    pub field: f32,
    pub scale: f32,
    pub cosine: f32,
}

impl Pass {
    // Returns whether the three numbers of the pass lie within question 5's limits.
    #[tactic(auto, unfolding(crate::specs::Passes::pass_fits))]
    fn fits(self) -> bool
        ensures { result ≡ pass_fits self }
    {
        crate::pass_limits::field_fits(self.field)
            && crate::pass_limits::scale_fits(self.scale)
            && crate::pass_limits::cosine_fits(self.cosine)
    }
}

// Returns pass number i of the slice, counted from 0.
// Kept: that the pass exists is a clause, here and where a pass is loaded, as for an index.
pub fn pass_at(passes: &[f32], i: u32) -> Pass
    requires { i < length passes.now / 3 }
    ensures { result ≡ pass_at passes.now i }
{
    let at = i as usize * 3;
    Pass {
        field: passes[at],
        scale: passes[at + 1],
        cosine: passes[at + 2],
    }
}

// Returns whether each of the first n passes lies within question 5's limits.
fn first_fit(passes: &[f32], n: u32) -> bool
    requires { n ≤ length passes.now / 3 }
    ensures { result ≡ first_fit passes.now n }
{
    (0..n).all(|i| pass_at(passes, i).fits())
}

// Question 5: is the pass slice 1 to 256 whole triples, each within its limits?
#[tactic(auto, unfolding(crate::specs::Passes::passes_fit))]
pub fn passes_fit(passes: &[f32]) -> bool
    ensures { result ≡ passes_fit passes.now }
{
    passes.len() % 3 == 0
        && passes.len() >= 3
        && passes.len() <= 768
        && first_fit(passes, (passes.len() / 3) as u32)
}
