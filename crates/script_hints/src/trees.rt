//! What a tree has at a path, and what a strategy was applied to.

use crate::explainer::Explainer;
use crate::variables::{VariableUse, variables_of};
use diagnostic::{Fill, say};
use hint_text::declaring;
use session_history::Timeline;
use term_core::NoMemory;
use term_paths::at;

impl Explainer<'_, '_> {
    /// Refusal 9: the longest front of the path that is there, and how many children that subterm
    /// has.
    pub fn explain_path(&mut self, history: &Timeline) -> Result<(), NoMemory> {
        let Some(mut subterm) = self.parts.tree(self.alloc, history) else {
            return Ok(());
        };
        let path = self.parts.path_or_root(self.alloc)?;
        let whole = Fill::Quoted(self.parts.path.unwrap_or(&[]));
        say!(self.hint; "{} leads only as far as `/", whole);
        let mut separator = "";
        for part in path.parts() {
            let Some(child) = subterm.child(*part) else {
                break;
            };
            subterm = child;
            say!(self.hint; "{}{}", Fill::Words(separator), Fill::Number(*part as u64));
            separator = "/";
        }
        drop(path);
        let count = subterm.child_count() as u64;
        say!(self.hint; match count {
            0 => "`, where the subterm has no children",
            1 => "`, where the subterm has 1 child; children are counted from 0",
            _ => "`, where the subterm has {} children; they are counted from 0",
        }, Fill::Number(count));
        Ok(())
    }

    /// Refusal 12: the root of the term that the strategy was applied to, and a variable of it that
    /// has the name of a constant.
    pub fn explain_fails(&mut self, history: &Timeline) -> Result<(), NoMemory> {
        let path = self.parts.path_or_root(self.alloc)?;
        let tree = self.parts.tree(self.alloc, history);
        let term = tree.and_then(|tree| at(tree, &path));
        drop(path);
        let Some(term) = term else {
            return Ok(());
        };
        say!(self.hint; "it was applied to ");
        self.hint.root(term.kind(), term.child_count());
        match self.strategy()? {
            Some(strategy) => {
                let uses = variables_of(self.alloc, &strategy)?;
                self.say_constant(&uses.variables);
                Ok(())
            }
            None => Ok(()),
        }
    }

    // Adds a line on the first variable of the strategy that has the name of a constant.
    fn say_constant(&mut self, uses: &[VariableUse<'_>]) {
        for found in uses {
            if declaring(self.modules, found.name, 0).is_some() {
                let (name, at) = self.quoted_at(self.bytes_of(found.place));
                self.hint.note();
                say!(self.hint; "{} at {} is a variable; the constant is `{}()`", name, at, Fill::Bytes(found.name.bytes()));
                return;
            }
        }
    }
}
