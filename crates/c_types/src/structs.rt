// The C structs of include/star_search.h: plain numbers, in the layout that a host in C sees.
// Kept: numbers, and a tag beside the value of an option, in every struct here, since C has no such enums (DECISIONS 53).

// The search state. `phase` is 0 for fresh, 1 for at its next read and 2 for ended; `status`, used where the state is ended, is 0 for TooFew,
// 1 for NoMatch and 2 for Timeout. The numbers from `pass` to `probe` name the next read, `four` being its combination's positions.
// `patterns` counts the combinations tried and `reads` the reads made; `reserved` is padding.
#[repr(C)]
#[derive(Clone, Copy)]
pub struct StarState {
    pub phase: u32,
    pub status: u32,
    pub pass: u32,
    pub four: [u32; 4],
    pub key: u32,
    pub probe: u32,
    pub reserved: u32,
    pub patterns: u64,
    pub reads: u64,
}

// The settings. A number whose name ends with `_given` is a tag: it is 1 where the option of that name is given, and 0 where it is absent.
// `reserved` is padding.
#[repr(C)]
#[derive(Clone, Copy)]
pub struct StarSettings {
    pub bins: u32,
    pub checking: u32,
    pub error: f32,
    pub radius: f32,
    pub matching_given: u32,
    pub matching: f32,
    pub fov_given: u32,
    pub fov: f32,
    pub cap_given: u32,
    pub reserved: u32,
    pub cap: u64,
    pub patterns: u64,
}

// A candidate. `place` holds four places in the brightness list and `star` four star indices; `rebuild` is 1 where the rebuild mark is set.
// `reserved` is padding.
#[repr(C)]
#[derive(Clone, Copy)]
pub struct StarCandidate {
    pub slot: u64,
    pub pass: u32,
    pub place: [u32; 4],
    pub star: [u32; 4],
    pub field: f32,
    pub rebuild: u32,
    pub reserved: u32,
}

// A call's answer. `answer` is 0 for a candidate, 1 for allowance used, 2 for ended and 3 for refused; `number` is the status of an ended search
// or the number of the question that refuses, else 0.
#[repr(C)]
#[derive(Clone, Copy)]
pub struct StarAnswer {
    pub answer: u32,
    pub number: u32,
    pub candidate: StarCandidate,
    pub state: StarState,
}

// What a slot holds. `answer` is 0 for filled, 1 for empty and 2 for refused; `number` is the number of the question that refuses, else 0.
#[repr(C)]
#[derive(Clone, Copy)]
pub struct StarSlot {
    pub answer: u32,
    pub number: u32,
}

// A part of the packed section, by its offset and length in bytes.
#[repr(C)]
#[derive(Clone, Copy)]
pub struct StarPart {
    pub offset: u64,
    pub length: u64,
}

// The sweep's answer. `answer` is 0 for written and 1 for refused; `number` is the number of the question that refuses, else 0; `count` is the
// count of values written.
#[repr(C)]
#[derive(Clone, Copy)]
pub struct StarSwept {
    pub answer: u32,
    pub number: u32,
    pub count: u64,
}

// A direction by its three components.
#[repr(C)]
#[derive(Clone, Copy)]
pub struct StarVector {
    pub x: f32,
    pub y: f32,
    pub z: f32,
}

// The answer of completing. `answer` is 0 for done and 1 for refused; `number` is the number of the question that refuses, else 0. `image` holds
// the four image vectors in matched order and `star` the four star vectors, all zero where it is refused.
#[repr(C)]
#[derive(Clone, Copy)]
pub struct StarCompleted {
    pub answer: u32,
    pub number: u32,
    pub image: [StarVector; 4],
    pub star: [StarVector; 4],
}
