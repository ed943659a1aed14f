// Writes the lines about a frame: its spots and passes, and the spots that a pass keeps.
ghost use Rattle.std.specs.Prelude.{◌≡◌, true, ◌≤◌, ◌<◌, ◌/◌, length};
ghost use Rattle.preprocess.specs.BrightnessList.{order_fits};

use crate::data::Data;
use crate::words::Count;
use preprocess::brightness_list::Place;

impl Data<'_> {
    // Writes how many spots and passes the frame has.
    pub fn frame_line(&self, rt: &impl Print) {
        let spots = Count(self.frame.order.len() as u64, "spot", "spots");
        let passes = Count(self.frame.passes.len() as u64 / 3, "pass", "passes");
        let _ = println!(rt; "{spots}, {passes}");
    }

    // Writes the places that thinning keeps in a pass.
    fn thinned(&self, rt: &impl Print, pass: u32)
        requires order { order_fits self.now.frame.order.now self.now.frame.centroids.now ≡ true }
        requires spots { length self.now.frame.order.now ≤ 256 }
        requires checking { self.now.frame.config.checking ≤ 64 }
        requires passes { pass < length self.now.frame.passes.now / 3 }
    {
        let p = settings::passes::pass_at(self.frame.passes, pass);
        let mut kept = [Place(0); 64];
        let mut dirs = [[0.0; 3]; 64];
        let n = thinning::kept_list::thin(
            self.frame.centroids,
            self.frame.order,
            p.scale,
            p.cosine,
            self.frame.config.checking,
            &mut kept,
            &mut dirs,
        );
        let _ = print!(rt; ": {n} kept after thinning: places");
        for place in &kept[..n as usize] {
            let _ = print!(rt; " {}", place.0);
        }
    }

    // Writes the line of a pass with the places that it keeps; it has none where the frame lacks the pass, has more than 256 spots or 64 checking
    // stars, or a brightness list that doesn't fit its centroids. These are the limits that `thinned` requires.
    pub fn pass_line(&self, rt: &impl Print, pass: u32) {
        let number = u64::from(pass) + 1;
        let _ = print!(rt; "  pass {number}");
        if self.frame.order.len() <= 256
            && self.frame.config.checking <= 64
            && (pass as usize) < self.frame.passes.len() / 3
            && preprocess::brightness_list::order_fits(self.frame.order, self.frame.centroids)
        {
            self.thinned(rt, pass);
        }
        let _ = println!(rt; "");
    }
}
