ghost use Rattle.std.specs.Prelude.{◌≡◌, [], OnOk};
ghost use Rattle.std.specs.Ordering.{nat_cmp};
ghost use Rattle.std.specs.Cmp.Lexicographic.{slice_cmp};
ghost use Rattle.std.specs.BTreeMap.{insert_entry};
ghost use Rattle.bk_asm.specs.Reading.{place_of};

use std::alloc::{AllocError, Global};
use std::collections::HashMap;
use std::marker::Model;

/// The labels of a text, each with the place of its instruction. Contracts see them in the order of
/// their names.
///
/// The map goes by hashes: a text of 16 MiB may have millions of labels, in any order, and for each a
/// tree compares names that lie all over the text. The hash has a fixed seed, so a text can be made
/// whose labels collide, which takes very long. That is borne: the answer is the same, and a run reads
/// one text, so that none but the one who gave it waits, and can stop the run.
#[derive(Drop)]
pub(crate) struct Labels<'a> {
    places: HashMap<&'a [u8], u32>,
}

impl<'a> Model for Labels<'a> {
    ghost use Rattle.std.specs.Prelude.{List, map};
    ghost use Rattle.bk_asm.specs.Names.{Naming};
    ghost use Rattle.bk_asm.specs.Kept.{in_order};

    ghost Value = { List Naming };

    ghost view = { λ l. in_order (map (λ e. (e.0.now, e.1)) l.places.entries) };
}

impl<'a> Labels<'a> {
    /// No labels.
    pub fn new(alloc: Global) -> Labels<'a>
        ensures { result ≡ [] }
    {
        Labels {
            places: HashMap::new(alloc),
        }
    }

    /// The place of a label.
    pub fn place_of(&self, name: &'a [u8]) -> Option<u32>
        ensures { result ≡ place_of self.now name.now }
    {
        self.places.get(name).copied()
    }

    /// One more label.
    pub fn define(&mut self, name: &'a [u8], place: u32) -> Result<(), AllocError>
        ensures { OnOk result (self.new ≡ insert_entry (slice_cmp nat_cmp) self.old name.now place) }
    {
        self.places.insert(name, place)?;
        Ok(())
    }
}
