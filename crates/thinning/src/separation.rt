// The directions of the kept spots, stored by columns, and the test whether a direction is too near to one of them.
ghost use Rattle.std.specs.Prelude.{◌≡◌, [], ◌∷◌, ◌++◌, ◌≤◌, ◌<◌, List, length, Float};
ghost use Rattle.thinning.specs.Separation.{dot, too_close};
ghost use Rattle.thinning.specs.Columns.{rows_of};

use std::marker::Model;

// Up to 64 directions: all x, then all y, then all z, so that several can be tested at once. Contracts see the list of them.
#[derive(Drop)]
pub struct Columns {
    x: [f32; 64],
    y: [f32; 64],
    z: [f32; 64],
    count: usize,
}

impl Model for Columns {
    ghost Value = { List (List Float) };

    ghost view = { λ c. rows_of c.x c.y c.z c.count };

    ghost invariant = { λ c. c.count ≤ 64 };
}

impl Columns {
    // Returns columns that hold no direction.
    pub fn new() -> Self
        ensures { result ≡ [] }
    {
        Columns {
            x: [0.0; 64],
            y: [0.0; 64],
            z: [0.0; 64],
            count: 0,
        }
    }

    // Returns the count of directions.
    pub fn len(&self) -> usize
        ensures { result ≡ length self.now }
    {
        self.count
    }

    // Stores the direction v after the others.
    pub fn push(&mut self, v: [f32; 3])
        requires { length self.old < 64 }
        ensures { self.new ≡ self.old ++ (v ∷ []) }
    {
        self.x[self.count] = v[0];
        self.y[self.count] = v[1];
        self.z[self.count] = v[2];
        self.count += 1;
    }

    // Returns whether v has a dot product above the cosine with one of the directions. The loop doesn't end early, so that the
    // compiler can test several directions at once.
    pub fn too_close(&self, cosine: f32, v: [f32; 3]) -> bool
        ensures { result ≡ too_close cosine v self.now }
    {
        let mut near = false;
        for j in 0..self.count {
            if cosine < dot(v, [self.x[j], self.y[j], self.z[j]]) {
                near = true;
            }
        }
        near
    }
}

// Returns the dot product of two directions, added from left to right.
fn dot(a: [f32; 3], b: [f32; 3]) -> f32
    ensures { result ≡ dot a b }
{
    a[0] * b[0] + a[1] * b[1] + a[2] * b[2]
}
