// The centroid slice: questions 1 and 2, centroid indices and unit vectors. No other module looks inside the slice.
ghost use Rattle.std.specs.Prelude.{◌≡◌, ◌+◌, ◌*◌, ◌<◌, length};
ghost use Rattle.preprocess.specs.Questions.{centroids_fit, coordinates_fit};
ghost use Rattle.preprocess.specs.UnitVectors.{unit_of, vector_of};

// The number of a centroid. Its x stands in the centroid slice at twice the number, and its y right after its x.
#[derive(Clone, Copy)]
pub struct CentroidIndex(pub u32);

// Question 1: is the centroid slice of even length, at most 512?
pub fn centroids_fit(centroids: &[f32]) -> bool
    ensures { result ≡ centroids_fit centroids.now }
{
    centroids.len() % 2 == 0 && centroids.len() <= 512
}

// Question 2: is each coordinate finite and of magnitude at most 32,768? A NaN or an infinity fails at least one of the two comparisons.
pub fn coordinates_fit(centroids: &[f32]) -> bool
    ensures { result ≡ coordinates_fit centroids.now }
{
    centroids.iter().all(|x| *x >= -32768.0 && *x <= 32768.0)
}

// Returns (x·scale, y·scale, 1), divided by its norm. The source multiplies x by a parity sign; here that sign is 1, and 1·x is x.
pub fn unit_vector_from_pixels(x: f32, y: f32, scale: f32) -> [f32; 3]
    ensures { result ≡ unit_of x y scale }
{
    let u = x * scale;
    let v = y * scale;
    let z: f32 = 1.0;
    let norm = square_root::sqrt(u * u + v * v + z * z);
    [u / norm, v / norm, z / norm]
}

// Returns the unit vector of a centroid at a pixel scale.
pub fn unit_vector(centroids: &[f32], i: CentroidIndex, scale: f32) -> [f32; 3]
    requires { 2 * i.0 + 1 < length centroids.now }
    ensures { result ≡ vector_of centroids.now i scale }
{
    let at = 2 * (i.0 as usize);
    let x = centroids[at];
    let y = centroids[at + 1];
    unit_vector_from_pixels(x, y, scale)
}
