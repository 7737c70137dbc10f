//! Laws over the definition of tokens alone. Each is the contract of a function that does nothing.

ghost use Rattle.strategy_tokens.specs.Laws.{SameTokens};

/// What comes later than two bytes after a token doesn't change it.
pub fn same_tokens()
    ensures { SameTokens }
{}
