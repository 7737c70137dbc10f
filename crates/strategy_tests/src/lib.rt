//! Calls of strategies that no command makes: texts that are parsed alike, where the definitions of a
//! module are, rows by each call of the evaluator, primitives of a host, strategies that no text
//! leads to, modules that are replaced, and changes that are undone. The crate holds only tests, so that parser, checker and
//! machine are proved once and not again with their tests. What texts are read as, and what is wrong
//! with one that isn't read, is shown by the answers of commands in `rows/` at the top of the
//! repository.
#![tactic(auto)]

#[cfg(test)]
mod alike;
#[cfg(test)]
mod calls;
#[cfg(test)]
mod definitions;
#[cfg(test)]
mod hosts;
#[cfg(test)]
mod listed;
#[cfg(test)]
mod replacing;
#[cfg(test)]
mod rows;
#[cfg(test)]
mod scopes;
#[cfg(test)]
mod slots;
#[cfg(test)]
mod unknown;
