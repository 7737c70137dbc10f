//! The brackets that are open at a place of a text.
#![tactic(auto, using(crate::proofs::BracketLemmas::bracket_parts))]

ghost use Rattle.std.specs.Prelude.{◌≡◌, ◌∷◌, [], IfSome, IfNone, OnOk, OnErr, length};
ghost use Rattle.aterm_text.specs.inside.BracketsView.{innermost_of};

use crate::reader::stack::Opening;
use std::alloc::Global;
use std::marker::Model;
use term_core::NoMemory;

/// An open bracket, and the number of terms before it.
#[derive(Clone, Copy)]
pub struct Bracket {
    pub opening: Opening,
    pub before: usize,
}

/// Nested open brackets. The innermost is stored apart from the others, so that a single one takes
/// no memory.
#[derive(Drop)]
pub struct OpenBrackets {
    innermost: Option<Bracket>,
    // The brackets around it, the outermost first.
    others: Vec<Bracket>,
}

impl Model for OpenBrackets {
    ghost use Rattle.std.specs.Prelude.{List};
    ghost use Rattle.aterm_text.specs.declared.reader.open_brackets.Bracket.{Bracket};

    ghost Value = { List Bracket };

    ghost use Rattle.aterm_text.specs.inside.BracketsView.{brackets_of, AreBrackets};

    ghost view = { λ a. brackets_of a.innermost a.others.items };

    ghost invariant = { λ a. AreBrackets a.innermost a.others.items };
}

impl OpenBrackets {
    /// No brackets. It takes no memory.
    pub fn new(alloc: Global) -> OpenBrackets
        ensures { result ≡ [] }
    {
        OpenBrackets {
            innermost: None,
            others: Vec::new(alloc),
        }
    }

    /// Opens a bracket inside the innermost one.
    pub fn open(&mut self, bracket: Bracket) -> Result<(), NoMemory>
        ensures ok { OnOk result (self.new ≡ bracket ∷ self.old) }
        ensures err { OnErr result (self.new ≡ self.old) }
    {
        if let Some(around) = self.innermost {
            self.others.push(around)?;
        }
        self.innermost = Some(bracket);
        Ok(())
    }

    /// Closes the innermost bracket, if one is open.
    pub fn close(&mut self) -> Option<Bracket>
        ensures some { IfSome result (λ bracket. self.old ≡ bracket ∷ self.new) }
        ensures none { IfNone result ((self.old ≡ []) × (self.new ≡ [])) }
    {
        let closed = self.innermost?;
        self.innermost = self.others.pop();
        Some(closed)
    }

    /// The innermost bracket, if one is open.
    pub fn innermost(&self) -> Option<Bracket>
        ensures { result ≡ innermost_of self.now }
    {
        self.innermost
    }

    /// The number of open brackets.
    pub fn count(&self) -> usize
        ensures { result ≡ length self.now }
    {
        match self.innermost {
            None => 0,
            Some(_) => self.others.len() + 1,
        }
    }
}
