// Turns what a slot read, the sweep and completing return into the plain numbers that a host in C sees.
ghost use Rattle.std.specs.Prelude.{◌≡◌};
ghost use Rattle.c_types.specs.Results.{slot_result_numbers, swept_numbers, vector_numbers, four_vectors, refused_vectors, completed_numbers};

use crate::structs::{StarCompleted, StarSlot, StarSwept, StarVector};
use complete::completing::Completed;
use pattern_catalog::slot_read::Slot;
use question::Question;

impl From<Result<Slot, Question>> for StarSlot {
    ghost from_gives = { λ s n. n ≡ slot_result_numbers s };

    // Returns what a slot holds as plain numbers.
    fn from(slot: Result<Slot, Question>) -> StarSlot {
        match slot {
            Ok(Slot::Filled) => StarSlot {
                answer: 0,
                number: 0,
            },
            Ok(Slot::Empty) => StarSlot {
                answer: 1,
                number: 0,
            },
            Err(question) => StarSlot {
                answer: 2,
                number: u32::from(question),
            },
        }
    }
}

impl From<Result<u64, Question>> for StarSwept {
    ghost from_gives = { λ s n. n ≡ swept_numbers s };

    // Returns the sweep's answer as plain numbers.
    fn from(swept: Result<u64, Question>) -> StarSwept {
        match swept {
            Ok(count) => StarSwept {
                answer: 0,
                number: 0,
                count,
            },
            Err(question) => StarSwept {
                answer: 1,
                number: u32::from(question),
                count: 0,
            },
        }
    }
}

impl From<[f32; 3]> for StarVector {
    ghost from_gives = { λ v n. n ≡ vector_numbers v };

    // Returns a direction as a vector for C.
    fn from(v: [f32; 3]) -> StarVector {
        let [x, y, z] = v;
        StarVector { x, y, z }
    }
}

// Returns four directions as vectors for C.
fn four_vectors(v: [[f32; 3]; 4]) -> [StarVector; 4]
    ensures { result ≡ four_vectors v }
{
    let [a, b, c, d] = v;
    [
        StarVector::from(a),
        StarVector::from(b),
        StarVector::from(c),
        StarVector::from(d),
    ]
}

// Returns the vectors that stand in a refusal: they are all zero.
fn refused_vectors() -> [StarVector; 4]
    ensures { result ≡ refused_vectors }
{
    four_vectors([[0.0, 0.0, 0.0]; 4])
}

impl From<Result<Completed, Question>> for StarCompleted {
    ghost from_gives = { λ c n. n ≡ completed_numbers c };

    // Returns the answer of completing as plain numbers.
    fn from(completed: Result<Completed, Question>) -> StarCompleted {
        match completed {
            Ok(vectors) => StarCompleted {
                answer: 0,
                number: 0,
                image: four_vectors(vectors.image),
                star: four_vectors(vectors.stars),
            },
            Err(question) => StarCompleted {
                answer: 1,
                number: u32::from(question),
                image: refused_vectors(),
                star: refused_vectors(),
            },
        }
    }
}
