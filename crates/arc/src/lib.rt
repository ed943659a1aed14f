// The arc: what stands in for the arcsine, for h from 0 to 1.
#![tactic(auto)]

ghost use Rattle.std.specs.Prelude.{◌≡◌};
ghost use Rattle.arc.specs.Arc.{rational, near_one, arc_of};

// Returns R(z) = z * (p0 + z * (p1 + z * p2)) / (1 + z * q1).
fn rational(z: f32) -> f32
    ensures { result ≡ rational z }
{
    z * (0.16666586697 + z * (-0.042743422091 + z * -0.008656363003)) / (1.0 + z * -0.7066296339)
}

// Returns the arc of an h from 0.5 on: P - 2 * (s + s * R(z)), where z is (1 - h) * 0.5, s is the root of z and P has bits 3FC90FDB.
fn near_one(h: f32) -> f32
    ensures { result ≡ near_one h }
{
    let z = (1.0 - h) * 0.5;
    let s = square_root::sqrt(z);
    f32::from_bits(0x3fc90fdb) - 2.0 * (s + s * rational(z))
}

// Returns the arc of h, for h from 0 to 1.
pub fn arc(h: f32) -> f32
    ensures { result ≡ arc_of h }
{
    if h < 0.000244140625 {
        return h;
    }
    if h < 0.5 {
        return h + h * rational(h * h);
    }
    near_one(h)
}
