// What a call of the search is lent.
ghost use Rattle.search_feed.specs.Claims.{FrameFits};
ghost use Rattle.search_feed.specs.Lent.{frame_in};

use crate::SearchConfig;

// A frame: its centroids (x and y each), the brightness list, the settings and the passes (field of view, pixel scale and cosine of the separation
// each).
#[derive(Clone, Copy)]
pub struct Frame<'a> {
    pub centroids: &'a [f32],
    pub order: &'a [u32],
    pub config: SearchConfig,
    pub passes: &'a [f32],
}

// A table: its slot count, the blocks of its slots, its packed section and its star slice (three components each).
#[derive(Clone, Copy)]
pub struct Table<'a> {
    pub slots: u64,
    pub words: &'a [u64],
    pub packed: &'a [u8],
    pub stars: &'a [f32],
}

// A frame of which questions 1 to 5 are answered yes.
// Kept: the slot count goes beside it and not in it, since functions that read the table have it of their Table.
#[derive(Clone, Copy)]
pub struct FittingFrame<'a> {
    pub frame: Frame<'a>,
    ghost fits: { FrameFits (frame_in frame) },
}
