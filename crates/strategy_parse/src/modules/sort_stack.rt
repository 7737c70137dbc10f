//! The sorts of a declaration, as they are read.
#![tactic(auto, unfolding(crate::specs::inside::Stacked::stack_of))]

ghost use Rattle.std.specs.Prelude.{◌≡◌, OnOk, [], true, false};
ghost use Rattle.strategy_parse.specs.inside.ModuleFronts.{with_sort, opened, closed, stacked};
ghost use Rattle.strategy_parse.specs.inside.NextToken.{next_token};
ghost use Rattle.strategy_parse.specs.inside.SortStacks.{no_stack};
ghost use Rattle.strategy_parse.specs.inside.Stacked.{stack_of};
ghost use Rattle.strategy_tokens.specs.declared.token.Sign.TheVariants.{OpenRound};
ghost use Rattle.strategy_tokens.specs.Marks.{is_mark};

use std::alloc::Global;
use std::marker::Model;
use std::mem;
use strategy_tokens::{Sign, Token, is_mark};
use term_core::{Name, NoMemory};
use term_sorts::Sort;

/// A sort whose arguments are being read, and the sorts before it.
#[derive(Drop)]
pub struct OpenSort {
    name: Name,
    before: Vec<Sort>,
}

impl Model for OpenSort {
    ghost use Rattle.strategy_parse.specs.inside.SortStacks.{OpenSort, open_sort_code};

    ghost Value = { OpenSort };

    ghost coded = { open_sort_code };

    ghost view = { λ o. record { name = o.name; before = o.before.items } };
}

/// The sorts that were read last, and the open ones around them.
#[derive(Drop)]
pub struct SortStack {
    around: Vec<OpenSort>,
    sorts: Vec<Sort>,
}

impl SortStack {
    /// Without any sort.
    pub fn new(alloc: Global) -> SortStack
        ensures { stack_of result ≡ no_stack }
    {
        SortStack {
            around: Vec::new(alloc),
            sorts: Vec::new(alloc),
        }
    }

    /// Takes a token of a sort, which these follow.
    pub fn take(&mut self, alloc: Global, token: &Token, rest: &[Token]) -> Result<(), NoMemory>
        ensures { OnOk result (stack_of self.new
            ≡ stacked (stack_of self.old) token.now (next_token rest.now)) }
    {
        if let Token::Ident(name) = token {
            let name = name.try_clone()?;
            return if is_bracket(rest) {
                self.begin(alloc, name)
            } else {
                self.add(alloc, name, Vec::new(alloc))
            };
        }
        if is_mark(token, Sign::CloseRound) {
            return self.end(alloc);
        }
        Ok(())
    }

    /// The sorts, if none is open.
    pub fn into_sorts(self) -> Vec<Sort>
        ensures { result.items ≡ (stack_of self).sorts }
    {
        let SortStack { around: _, sorts } = self;
        sorts
    }

    // Adds the sort of this name with these arguments.
    fn add(&mut self, alloc: Global, name: Name, arguments: Vec<Sort>) -> Result<(), NoMemory>
        ensures { OnOk result (stack_of self.new ≡ with_sort (stack_of self.old) name arguments.items) }
    {
        self.sorts.push(Sort::new(alloc, name, arguments)?)?;
        Ok(())
    }

    // Begins the arguments of the sort of this name.
    fn begin(&mut self, alloc: Global, name: Name) -> Result<(), NoMemory>
        ensures { OnOk result (stack_of self.new ≡ opened (stack_of self.old) name) }
    {
        let before = mem::replace(&mut self.sorts, Vec::new(alloc));
        self.around.push(OpenSort { name, before })?;
        Ok(())
    }

    // Ends the arguments of the innermost open sort.
    fn end(&mut self, alloc: Global) -> Result<(), NoMemory>
        ensures { OnOk result (stack_of self.new
            ≡ closed (stack_of self.old).around (stack_of self.old).sorts) }
    {
        let Some(OpenSort { name, before }) = self.around.pop() else {
            return Ok(());
        };
        let arguments = mem::replace(&mut self.sorts, before);
        self.add(alloc, name, arguments)
    }
}

// Whether an opening bracket comes next.
fn is_bracket(tokens: &[Token]) -> bool
    ensures { result ≡ is_mark OpenRound (next_token tokens.now) }
{
    match tokens.first() {
        Some(token) => is_mark(token, Sign::OpenRound),
        None => false,
    }
}
