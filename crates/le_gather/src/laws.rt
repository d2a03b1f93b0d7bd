ghost use Rattle.le_gather.specs.Laws.{FoldsMean};

/// What the folds mean: of numbers alone the sum is their sum, where it is in range, and the greatest is one
/// of them that none exceeds; and the first value that isn't a number decides. It does nothing.
pub fn folds_mean()
    ensures { FoldsMean }
{}
