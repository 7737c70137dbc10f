//! Laws over the definitions of strategy and module texts alone. Each is the contract of a function
//! that does nothing.

ghost use Rattle.strategy_parse.specs.Laws.{OneModule, OneResult};

/// A text is at most one strategy.
pub fn one_result()
    ensures { OneResult }
{}

/// A text is at most one module.
pub fn one_module()
    ensures { OneModule }
{}
