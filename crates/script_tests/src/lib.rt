//! Runs of scripts that need a reader, a writer, an observer or a primitive of their own, or a call
//! that no command makes. What a script alone shows is in `rows/`. The crate holds only tests, so
//! that what answers scripts is proved once and not again with its tests. `rows` are the worked rows of the
//! program's definition.
#![tactic(auto)]

#[cfg(test)]
mod rows;
#[cfg(test)]
mod runs;
