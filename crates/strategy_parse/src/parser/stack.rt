//! The open forms, the innermost on top.
#![tactic(auto, unfolding(crate::specs::inside::Forms::forms))]

use crate::parser::state::{Infix, Order, ParserFrame};
use std::alloc::Global;
use strategy_syntax::Strategy;
use term_core::{Name, NoMemory};

/// The open forms.
#[derive(Drop)]
pub struct ParserStack {
    frames: Vec<ParserFrame>,
}

impl ParserStack {
    ghost use Rattle.std.specs.Prelude.{◌≡◌, ◌∷◌, [], IfOk, IfSome, IfNone, OnOk, true, false, reverse};
    ghost use Rattle.strategy_parse.specs.inside.Parser.{no_operand, no_at, order_of, HasOperand};
    ghost use Rattle.strategy_parse.specs.inside.Forms.{forms};
    ghost use Rattle.strategy_parse.specs.declared.parser.state.ParserFrame.{ParserFrame};

    /// An empty stack.
    pub fn new(alloc: Global) -> ParserStack
        ensures { forms result ≡ [] }
    {
        ParserStack {
            frames: Vec::new(alloc),
        }
    }

    /// A stack for a strategy that is read in the order of the text.
    pub fn in_text(alloc: Global) -> Result<ParserStack, NoMemory>
        ensures { IfOk result (λ stack. forms stack ≡ ParserFrame.InText ∷ []) }
    {
        let mut stack = ParserStack::new(alloc);
        stack.push(ParserFrame::InText)?;
        Ok(stack)
    }

    /// The order in which parts of forms are put together.
    pub fn order(&self) -> Order
        ensures { result ≡ order_of (forms self.now) }
    {
        match self.frames.first() {
            Some(outermost) => outermost.order(),
            None => Order::Run,
        }
    }

    pub fn push(&mut self, frame: ParserFrame) -> Result<(), NoMemory>
        ensures { OnOk result (forms self.new ≡ frame ∷ forms self.old) }
    {
        self.frames.push(frame)?;
        Ok(())
    }

    /// Closes the innermost form, if one is open.
    pub fn pop(&mut self) -> Option<ParserFrame>
        ensures some { IfSome result (λ frame. forms self.old ≡ frame ∷ forms self.new) }
        ensures none { IfNone result ((forms self.old ≡ []) × (forms self.new ≡ [])) }
    {
        self.frames.pop()
    }

    /// Whether the innermost form is a strategy with this operator.
    pub fn has_operand(&self, operator: Infix) -> bool
        ensures yes { result ≡ true → HasOperand operator (forms self.now) }
        ensures none { result ≡ false → no_operand operator (forms self.now) }
    {
        match self.frames.last() {
            Some(ParserFrame::Operand(found, _)) => *found == operator,
            _ => false,
        }
    }

    /// Closes the innermost form if it is a strategy with this operator.
    pub fn pop_operand(&mut self, operator: Infix) -> Option<Strategy>
        ensures some { IfSome result (λ s. forms self.old
            ≡ ParserFrame.Operand operator s ∷ forms self.new) }
        ensures none { IfNone result (no_operand operator (forms self.old) × (self.new
            ≡ self.old)) }
    {
        if !self.has_operand(operator) {
            return None;
        }
        match self.pop() {
            Some(ParserFrame::Operand(_, strategy)) => Some(strategy),
            other => {
                drop(other);
                None
            }
        }
    }

    /// Closes the innermost form if it is an `x @`.
    pub fn pop_at(&mut self) -> Option<Name>
        ensures some { IfSome result (λ name. forms self.old ≡ ParserFrame.At name ∷ forms self.new) }
        ensures none { IfNone result (no_at (forms self.old) × (self.new ≡ self.old)) }
    {
        if !matches!(self.frames.last(), Some(ParserFrame::At(_))) {
            return None;
        }
        match self.pop() {
            Some(ParserFrame::At(name)) => Some(name),
            other => {
                drop(other);
                None
            }
        }
    }
}

impl ParserFrame {
    ghost use Rattle.std.specs.Prelude.{◌≡◌, ◌∷◌, []};
    ghost use Rattle.strategy_parse.specs.inside.Parser.{order_of};

    // The order that it asks for if it is the outermost form.
    fn order(&self) -> Order
        ensures { result ≡ order_of (self.now ∷ []) }
    {
        match self {
            ParserFrame::InText => Order::Written,
            ParserFrame::Operand(_, _)
            | ParserFrame::At(_)
            | ParserFrame::Strategy(_)
            | ParserFrame::Pattern(_) => Order::Run,
        }
    }
}
