ghost use Rattle.std.specs.Prelude.{◌≡◌, ◌<◌, ◌≤◌, length, position, not, IfSome};
ghost use Rattle.std.specs.Fn.{FnReturnsAt};
ghost use Rattle.bk_base.specs.States.{is_readable};
ghost use Rattle.bk_lce.specs.Policies.{IsPolicy, AreViews, IsOfGreatestAge, IsOldest, pinned, views};
ghost use Rattle.bk_lce.specs.CacheArrays.{state_of};

use crate::cache_arrays::CacheArrays;
use crate::line::WayView;

/// A victim policy that was stored: which way of a set gives way to a block that is to be placed there. Contracts see
/// the closure; that it may be asked and answers a way of the set is `IsPolicy`, which `store` has as its condition.
#[derive(Clone, Copy)]
pub struct Victim<F> {
    pub(crate) pick: F,
}

impl<F: Fn(&[WayView]) -> u8 + Copy + Send> Victim<F> {
    /// Stores a policy. It may be asked about every list of 1 to 8 views, and answers a number below its length.
    pub fn store(pick: F) -> Victim<F>
        requires { IsPolicy F.Fn pick }
        ensures stored { result.pick ≡ pick }
        ensures policy { IsPolicy F.Fn result.pick }
    {
        Victim { pick }
    }

    /// What the policy answers to views.
    fn ask(&self, views: &[WayView]) -> u8
        requires policy { IsPolicy F.Fn self.now.pick }
        requires views { AreViews views.now }
        ensures answer { FnReturnsAt F.Fn self.now.pick views.now result }
        ensures within { result < length views.now }
    {
        (self.pick)(views)
    }

    /// What the policy answers to the views of a set: a way of the cache.
    pub fn choose(&self, arrays: &CacheArrays, set: u8) -> u8
        requires policy { IsPolicy F.Fn self.now.pick }
        requires set { set < arrays.now.config.sets }
        ensures answer { FnReturnsAt F.Fn self.now.pick (views arrays.now.config (state_of arrays.now) set) result }
        ensures within { result < arrays.now.config.ways }
    {
        let views = arrays.views(set);
        self.ask(views.as_slice())
    }
}

/// A way where the set has it, else way 0. A policy that pins a way is a closure that keeps it and asks this.
pub fn pinned(views: &[WayView], way: u8) -> u8
    ensures { result ≡ pinned views.now way }
{
    if (way as usize) < views.len() { way } else { 0 }
}

/// The first way in `I`.
fn first_invalid(views: &[WayView]) -> Option<usize>
    ensures value { result ≡ position (λ view. not (is_readable view.state)) views.now }
    ensures within { IfSome result (λ way. way < length views.now) }
{
    views.iter().position(|view| !view.state.readable())
}

/// The least way among those of the greatest age.
fn of_greatest_age(views: &[WayView]) -> usize
    requires { AreViews views.now }
    ensures oldest { IsOfGreatestAge views.now result }
    ensures within { result < length views.now }
{
    let mut oldest = 0;
    for way in 1..views.len() {
        if views[oldest].age < views[way].age {
            oldest = way;
        }
    }
    oldest
}

/// The least way in `I`; where none is, the least way among those of the greatest age.
pub fn oldest(views: &[WayView]) -> u8
    requires { AreViews views.now }
    ensures oldest { IsOldest views.now result }
    ensures within { result < length views.now }
{
    match first_invalid(views) {
        Some(way) => way as u8,
        None => of_greatest_age(views) as u8,
    }
}
