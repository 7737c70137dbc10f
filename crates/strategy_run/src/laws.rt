//! A law about the condition of applying. It is the contract of a function that does nothing.

ghost use Rattle.strategy_run.specs.Laws.{SubtermsAreLowEnough};

/// In a tree whose height is at most 1,000, each subterm is low enough at its level: the length of
/// its path plus its height is at most 1,000. So strategies may be applied anywhere in such trees
/// without asking `is_low_enough`.
pub fn subterms_are_low_enough()
    ensures { SubtermsAreLowEnough }
{}
