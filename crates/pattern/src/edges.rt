// The edges of a pattern of four directions, and their ratios.
ghost use Rattle.std.specs.Prelude.{◌≡◌};
ghost use Rattle.pattern.specs.Edges.{squared_distance, distance, angle_of, angle, angles, edges_of, ratios_of};

// Returns the squared distance of two points.
pub fn squared_distance(a: [f32; 3], b: [f32; 3]) -> f32
    ensures { result ≡ squared_distance a b }
{
    let x = a[0] - b[0];
    let y = a[1] - b[1];
    let z = a[2] - b[2];
    x * x + y * y + z * z
}

// Returns the distance of two points.
fn vec3_dist(a: [f32; 3], b: [f32; 3]) -> f32
    ensures { result ≡ distance a b }
{
    square_root::sqrt(squared_distance(a, b))
}

// Returns the angle that belongs to a distance: twice the arc of half the distance, that half cut to at most 1.
pub fn angle_from_distance(d: f32) -> f32
    ensures { result ≡ angle_of d }
{
    2.0 * arc::arc(numeric::min_max::smaller(0.5 * d, 1.0))
}

// Returns the angle between two directions.
pub fn angle(a: [f32; 3], b: [f32; 3]) -> f32
    ensures { result ≡ angle a b }
{
    angle_from_distance(vec3_dist(a, b))
}

// Returns the angles of the six pairs of four directions, in the source's order of the pairs.
fn angles(v: [[f32; 3]; 4]) -> [f32; 6]
    ensures { result ≡ angles v }
{
    [
        angle(v[0], v[1]),
        angle(v[0], v[2]),
        angle(v[0], v[3]),
        angle(v[1], v[2]),
        angle(v[1], v[3]),
        angle(v[2], v[3]),
    ]
}

// Returns the six edge angles of four directions, the smallest first. It uses the plain sort, since it is called only for an entry whose mark agrees.
pub fn compute_sorted_edge_angles(v: [[f32; 3]; 4]) -> [f32; 6]
    ensures { result ≡ edges_of v }
{
    crate::edge_sort::sort_any(angles(v))
}

// Returns the ratios of the five smaller edges to the largest. All are 0 where the largest is not above 0.
pub fn compute_edge_ratios(e: [f32; 6]) -> [f32; 5]
    ensures { result ≡ ratios_of e }
{
    let largest = e[5];
    if 0.0 < largest {
        return std::array::from_fn(|i| e[i] / largest);
    }
    [0.0; 5]
}
