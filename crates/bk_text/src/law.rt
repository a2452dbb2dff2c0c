ghost use Rattle.std.specs.Prelude.{◌≡◌, ℕ, List, map};
ghost use Rattle.std.specs.List.{AllByRecursion, filter, slice_split};
ghost use Rattle.bk_text.specs.Texts.{is_blank, is_nonempty};
ghost use Rattle.bk_text.specs.LineWords.{StandsIn, words_from};

/// The words of a line are all that its blanks separate, in order, and each stands at its column.
pub fn words_of_a_line()
    ensures parts { (column : ℕ) (bytes : List ℕ) → filter is_nonempty (slice_split is_blank bytes)
        ≡ map (λ w. w.word) (words_from column bytes) }
    ensures places { (column : ℕ) (bytes : List ℕ) → AllByRecursion (StandsIn column bytes) (words_from column bytes) }
{}
