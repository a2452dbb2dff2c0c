ghost use Rattle.std.specs.Prelude.{◌≡◌, ◌<◌};
ghost use Rattle.arrayvec.specs.ArrayVec.{array_vec_len};
ghost use Rattle.bk_lce.specs.Lists.{HoldsAges};
ghost use Rattle.bk_lce.specs.Policies.{view_of, views, AreViews};
ghost use Rattle.bk_lce.specs.CacheArrays.{state_of};

use crate::cache_arrays::CacheArrays;
use crate::line::WayView;
use arrayvec::ArrayVec;
use bk_base::Coh;

impl CacheArrays {
    /// What a policy is told of a way of a set, where a word has the ages of its ways.
    fn view(&self, set: u8, way: u8, ages: u32) -> WayView
        requires set { set < self.now.config.sets }
        requires way { way < self.now.config.ways }
        requires ages { HoldsAges self.now.config.ways ((state_of self.now).recency set) ages }
        ensures { result ≡ view_of (state_of self.now) set way }
    {
        WayView {
            state: self.kept(set, way).state,
            age: ((ages >> (3 * way as u32)) % 8) as u8,
        }
    }

    /// The state and age of each way of a set, by way.
    pub fn views(&self, set: u8) -> ArrayVec<WayView, 8>
        requires { set < self.now.config.sets }
        ensures items { result.items ≡ views self.now.config (state_of self.now) set }
        ensures views { AreViews result.items }
        ensures count { array_vec_len result ≡ self.now.config.ways }
    {
        let ages = self.ages(set);
        let mut views = ArrayVec::new();
        for way in 0..self.config.ways {
            views.push(self.view(set, way, ages));
        }
        views
    }
}
