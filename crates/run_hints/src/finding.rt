//! Strategies with their names, found by the places of the resolved ones that a run begins.

use strategy_syntax::{ResolvedForm as Form, ResolvedStrategy, Strategy, StrategyForm as Named};

/// A strategy, resolved and with its names.
#[derive(Clone, Copy)]
pub struct Part<'a> {
    pub resolved: &'a ResolvedStrategy,
    pub named: &'a Strategy,
}

impl<'a> Part<'a> {
    pub fn new(resolved: &'a ResolvedStrategy, named: &'a Strategy) -> Part<'a> {
        Part { resolved, named }
    }

    /// What it begins with, if it is a sequence or a scope.
    pub fn front(self) -> Option<Part<'a>> {
        match (self.resolved.form(), self.named.form()) {
            (Form::Seq(parts), Named::Seq(names)) => Some(Part::new(&parts.0, &names.0)),
            (Form::Scope(_, part), Named::Scope(_, name)) => Some(Part::new(part, name)),
            _ => None,
        }
    }
}

/// A part of a strategy, and what is around it.
#[derive(Clone, Copy)]
pub struct Node<'a> {
    pub part: Part<'a>,
    /// The choice among whose alternatives it is the last.
    pub choice: Option<Part<'a>>,
    /// The choice that it ends as `fail` after the condition has succeeded, as in `not(s)`.
    pub guard: Option<&'a Strategy>,
    /// Whether it is the whole strategy, or the last alternative of that.
    pub is_whole: bool,
}

impl<'a> Node<'a> {
    /// A strategy that is no part, or one whose failure isn't that of the strategy around it.
    pub fn new(part: Part<'a>, is_whole: bool) -> Node<'a> {
        Node {
            part,
            choice: None,
            guard: None,
            is_whole,
        }
    }

    // A part that fails where this does, and is applied to the same term.
    fn front(self, resolved: &'a ResolvedStrategy, named: &'a Strategy) -> Node<'a> {
        Node {
            part: Part::new(resolved, named),
            guard: None,
            ..self
        }
    }

    // Any other part.
    fn inner(resolved: &'a ResolvedStrategy, named: &'a Strategy) -> Node<'a> {
        Node::new(Part::new(resolved, named), false)
    }

    /// The part of it that is this strategy, by its place and its form.
    #[cycle(find)]
    pub fn find(self, wanted: &ResolvedStrategy, deep: usize) -> Option<Node<'a>> {
        let deep = deep.checked_sub(1)?;
        let Part { resolved, named } = self.part;
        if !is_around(resolved, wanted) {
            return None;
        }
        if is_same(resolved, wanted) {
            return Some(self);
        }
        match (resolved.form(), named.form()) {
            (Form::Seq(parts), Named::Seq(names)) => {
                self.front(&parts.0, &names.0)
                    .find(wanted, deep)
                    .or(Node::inner(&parts.1, &names.1).find(wanted, deep))
            }
            (Form::Guard(parts), Named::Guard(names)) => {
                let first = Node::inner(&parts.0, &names.0);
                let mut then = Node::inner(&parts.1, &names.1);
                if let Form::Fail = parts.1.form() {
                    then = self.front(&parts.1, &names.1);
                    then.guard = Some(named);
                }
                let mut otherwise = self.front(&parts.2, &names.2);
                otherwise.choice = self.choice.or(Some(self.part));
                otherwise
                    .find(wanted, deep)
                    .or(then.find(wanted, deep))
                    .or(first.find(wanted, deep))
            }
            (Form::Scope(_, part), Named::Scope(_, name))
            | (Form::Test(part), Named::Test(name))
            | (Form::Rec(part), Named::Rec(_, name)) => self.front(part, name).find(wanted, deep),
            (Form::All(part), Named::All(name))
            | (Form::One(part), Named::One(name))
            | (Form::Some(part), Named::Some(name))
            | (Form::Child(_, part), Named::Child(_, name)) => {
                Node::inner(part, name).find(wanted, deep)
            }
            (Form::Call(_, parts, _), Named::Use(_, names, _))
            | (Form::Congruence(_, parts), Named::Use(_, names, _))
            | (Form::Congruence(_, parts), Named::Congruence(_, names)) => {
                find_among(parts, names, wanted, deep)
            }
            (Form::TailCongruence(parts, tail), Named::TailCongruence(names, name)) => {
                Node::inner(tail, name)
                    .find(wanted, deep)
                    .or(find_among(parts, names, wanted, deep))
            }
            // those without parts, and those that aren't resolved from one another
            (
                Form::Id
                | Form::Fail
                | Form::Match(_)
                | Form::Build(_)
                | Form::Param(_)
                | Form::Prim(_, _)
                | Form::Seq(_)
                | Form::Guard(_)
                | Form::Scope(_, _)
                | Form::Test(_)
                | Form::Rec(_)
                | Form::All(_)
                | Form::One(_)
                | Form::Some(_)
                | Form::Child(_, _)
                | Form::Call(_, _, _)
                | Form::Congruence(_, _)
                | Form::TailCongruence(_, _),
                _,
            ) => None,
        }
    }
}

#[cycle(find)]
fn find_among<'a>(
    parts: &'a [ResolvedStrategy],
    names: &'a [Strategy],
    wanted: &ResolvedStrategy,
    deep: usize,
) -> Option<Node<'a>> {
    let mut found = None;
    for (part, name) in parts.iter().zip(names) {
        found = Node::inner(part, name).find(wanted, deep).or(found);
    }
    found
}

/// Whether the other strategy stands within this one, or at its place.
pub fn is_around(strategy: &ResolvedStrategy, part: &ResolvedStrategy) -> bool {
    strategy.text() == part.text() && strategy.place().contains(part.place())
}

/// Whether both have one place and one form: then they are the same.
pub fn is_same(strategy: &ResolvedStrategy, other: &ResolvedStrategy) -> bool {
    strategy.text() == other.text()
        && strategy.place() == other.place()
        && form_number(strategy.form()) == form_number(other.form())
}

/// Whether it looks for a child. Where it fails is the last place that was looked at, and doesn't
/// say why.
pub fn is_search(strategy: &ResolvedStrategy) -> bool {
    matches!(strategy.form(), Form::One(_) | Form::Some(_))
}

fn form_number(form: &Form) -> u32 {
    match form {
        Form::Id => 0,
        Form::Fail => 1,
        Form::Match(_) => 2,
        Form::Build(_) => 3,
        Form::Seq(_) => 4,
        Form::Guard(_) => 5,
        Form::Test(_) => 6,
        Form::Scope(_, _) => 7,
        Form::Param(_) => 8,
        Form::Call(_, _, _) => 9,
        Form::Congruence(_, _) => 10,
        Form::TailCongruence(_, _) => 11,
        Form::All(_) => 12,
        Form::One(_) => 13,
        Form::Some(_) => 14,
        Form::Child(_, _) => 15,
        Form::Rec(_) => 16,
        Form::Prim(_, _) => 17,
    }
}
