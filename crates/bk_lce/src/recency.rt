ghost use Rattle.std.specs.Prelude.{◌≡◌, ◌<◌, ◌≤◌, ◌*◌, ◌/◌, ◌%◌, ◌^◌};
ghost use Rattle.bk_lce.specs.CacheState.{packed, used, to_front};
ghost use Rattle.bk_lce.specs.Lists.{digits, times, HoldsAges, IsListed};
ghost use Rattle.bk_lce.specs.CacheArrays.{state_of};

use crate::cache_arrays::CacheArrays;

/// The place of a way in the list that a word holds.
fn place_in(word: u32, ways: u8, way: u8) -> u8
    requires { times way (digits ways word) ≡ 1 }
    ensures within { result < ways }
    ensures there { word / 2 ^ (3 * result) % 8 ≡ way }
{
    let mut rest = word;
    for place in 0..ways {
        if rest % 8 == way as u32 {
            return place;
        }
        rest /= 8;
    }
    0
}

/// The ages of the ways in the list that a word holds, as a word: way w has its age in bits 3 * w to 3 * w + 2.
pub(crate) fn ages_in(word: u32, ways: u8) -> u32
    requires ways { ways ≤ 8 }
    requires listed { IsListed ways word }
    ensures { HoldsAges ways (digits ways word) result }
{
    let mut ages = 0;
    let mut rest = word;
    for place in 0..ways {
        ages |= (place as u32) << (3 * (rest % 8));
        rest /= 8;
    }
    ages
}

/// A word after the way at a place came to the front: the ways before it move up by one place.
fn to_front(word: u32, ways: u8, way: u8, place: u8) -> u32
    requires ways { ways ≤ 8 }
    requires listed { IsListed ways word }
    requires way { way < ways }
    requires place { place < ways }
    requires there { word / 2 ^ (3 * place) % 8 ≡ way }
    ensures list { digits ways result ≡ to_front way (digits ways word) }
    ensures listed { IsListed ways result }
{
    let unit = 1u32 << (3 * place as u32);
    let before = word % unit;
    let after = word / unit / 8;
    way as u32 + 8 * (before + unit * after)
}

impl CacheArrays {
    /// The recency list of a set as one word: the way at place i of the list stands in bits 3 * i to 3 * i + 2,
    /// and all other bits are 0.
    pub fn recency(&self, set: u8) -> u32
        requires { set < self.now.config.sets }
        ensures { result ≡ packed ((state_of self.now).recency set) }
    {
        self.recency[set as usize]
    }

    /// The ages of the ways of a set, as a word.
    pub(crate) fn ages(&self, set: u8) -> u32
        requires { set < self.now.config.sets }
        ensures { HoldsAges self.now.config.ways ((state_of self.now).recency set) result }
    {
        ages_in(self.recency[set as usize], self.ways())
    }

    /// Makes a way the most recently used of its set.
    pub(crate) fn use_way(&mut self, set: u8, way: u8)
        requires set { set < self.old.config.sets }
        requires way { way < self.old.config.ways }
        ensures state { state_of self.new ≡ used (state_of self.old) set way }
        ensures config { self.new.config ≡ self.old.config }
        ensures number { self.new.number ≡ self.old.number }
    {
        let word = self.recency[set as usize];
        let ways = self.ways();
        let place = place_in(word, ways, way);
        self.recency[set as usize] = to_front(word, ways, way, place);
    }
}
