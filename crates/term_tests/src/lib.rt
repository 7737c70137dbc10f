//! Calls on terms that no command makes, a few each: paths, the room that names and terms take, and
//! matching. The crate holds only tests, so that the crates of terms are proved once and not again
//! with their tests. What is read, shown, changed and undone is shown by the scripts in `rows/` at
//! the top of the repository.
#![tactic(auto)]

#[cfg(test)]
mod matching;
#[cfg(test)]
mod paths;
#[cfg(test)]
mod sorts;
#[cfg(test)]
mod terms;
