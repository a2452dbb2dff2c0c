//! Laws over definitions alone: each function is empty, and its contract is the law.

ghost use Rattle.std.specs.Prelude.{◌≡◌, ◌<◌, ℕ};
ghost use Rattle.bk_base.specs.Places.{Shape};
ghost use Rattle.bk_dir.specs.declared.entry.Query.{Query};
ghost use Rattle.bk_dir.specs.Contents.{Contents};
ghost use Rattle.bk_dir.specs.Summaries.{found, has_bit, is_other, summary};
ghost use Rattle.bk_dir.specs.Laws.{FoundSays, OwnSays, OwnerSays, OthersSay, VictimSays};

/// What `Directory::find` and `Directory::summary` say of single entries. `found` is the least way of a cache whose entry holds
/// the block. `own` is the state there, for the cache that asks. `owner` is the least other cache with an entry that answers for
/// the block, with its least such way. `others` has a bit for each other cache with an entry `S` of it, and no bit besides.
/// `victim` is not `I` exactly where a block is to be placed at a way whose entry is valid and of another block.
pub fn laws()
    ensures found { (k : Shape) (d : Contents) (c s tag : ℕ) → FoundSays k d c s tag (found k d c s tag) }
    ensures own { (k : Shape) (d : Contents) (query : Query) → OwnSays k d query (summary k d query) }
    ensures owner { (k : Shape) (d : Contents) (query : Query) → OwnerSays k d query (summary k d query) }
    ensures others { (k : Shape) (d : Contents) (query : Query) → OthersSay k d query (summary k d query) }
    ensures bits { (k : Shape) (d : Contents) (query : Query) (c : ℕ) → c < k.caches
        → has_bit (summary k d query).others c ≡ is_other k d query c }
    ensures victim { (k : Shape) (d : Contents) (query : Query) → VictimSays d query (summary k d query) }
{}
