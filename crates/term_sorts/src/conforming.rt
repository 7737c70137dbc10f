//! Which terms are what a place wants.

ghost use Rattle.std.specs.Prelude.{◌≡◌, ◌↔◌, List, IsTrue, None, slice_get};
ghost use Rattle.std.specs.declared.option.Option.{Option};
ghost use Rattle.term_core.specs.Tree.{Trees, branch, application, list, tuple, of_list};
ghost use Rattle.term_sorts.specs.Sorts.{Sort, Conforms, IsWellSorted, AllConform, HaveSorts, WantsInside};
ghost use Rattle.term_sorts.specs.Signatures.{wanted_sort};
ghost use Rattle.term_sorts.specs.inside.Tables.{AreNumbers};
ghost use Rattle.term_sorts.specs.inside.Wanting.{IsTakenString};

use crate::numbers::at;
use crate::taking::Parts;
use crate::{Signature, Wanted};
use term_core::{Kind, Name, Term};

impl Wanted {
    /// A term of any sort.
    pub fn anything() -> Wanted
        ensures { result.number ≡ None }
    {
        Wanted { number: None }
    }
}

impl Signature {
    /// Whether the term is of some sort.
    pub fn is_well_sorted(&self, term: &Term) -> bool
        ensures { IsTrue result ↔ IsWellSorted self.now.declared term.now }
    {
        self.conforms(term, Wanted::anything())
    }

    /// Whether the term is what a place wants.
    #[cycle(conforms)]
    pub fn conforms(&self, term: &Term, wanted: Wanted) -> bool
        ensures { IsTrue result ↔ Conforms self.now.declared (wanted_sort self.now.sorts wanted) term.now }
    {
        let children = term.children();
        match term.kind() {
            Kind::Integer(_) => self.table.takes(wanted, self.integers),
            Kind::List => self.list_conforms(children, wanted),
            Kind::Tuple => self.tuple_conforms(children, wanted),
            Kind::Application(name) => self.application_conforms(name, children, wanted),
        }
    }

    // The same of a list of these elements.
    #[cycle(conforms)]
    fn list_conforms(&self, elements: &[Term], wanted: Wanted) -> bool
        ensures { (notes : Trees) → IsTrue result ↔ Conforms self.now.declared
            (wanted_sort self.now.sorts wanted) (branch list (of_list elements.now) notes) }
    {
        let Some(element) = self.table.elements(wanted) else {
            return false;
        };
        self.all_conform(elements, element)
    }

    // The same of a tuple of these terms.
    #[cycle(conforms)]
    fn tuple_conforms(&self, terms: &[Term], wanted: Wanted) -> bool
        ensures { (notes : Trees) → IsTrue result ↔ Conforms self.now.declared
            (wanted_sort self.now.sorts wanted) (branch tuple (of_list terms.now) notes) }
    {
        match self.table.parts(wanted, terms.len()) {
            Parts::Any => self.all_conform(terms, Wanted::anything()),
            Parts::Of(numbers) => self.each_conforms(terms, numbers),
            Parts::Refused => false,
        }
    }

    // The same of an application of the name to these arguments.
    #[cycle(conforms)]
    fn application_conforms(&self, name: &Name, arguments: &[Term], wanted: Wanted) -> bool
        ensures { (notes : Trees) → IsTrue result ↔ Conforms self.now.declared
            (wanted_sort self.now.sorts wanted) (branch (application name.now) (of_list arguments.now) notes) }
    {
        if self.takes_string(name, arguments, wanted) {
            return true;
        }
        let Some(form) = self.form(name, arguments.len()) else {
            return false;
        };
        if !self.table.takes(wanted, form.given) {
            return false;
        }
        self.each_conforms(arguments, &form.arguments)
    }

    // Whether it is a string, and the place takes strings.
    fn takes_string(&self, name: &Name, arguments: &[Term], wanted: Wanted) -> bool
        ensures { IsTrue result ↔ IsTakenString self.now.declared.injections
            (wanted_sort self.now.sorts wanted) name.now arguments.now }
    {
        if !name.is_quoted() || !arguments.is_empty() {
            return false;
        }
        self.table.takes(wanted, self.strings)
    }

    // Whether all are what one place wants.
    #[cycle(conforms)]
    fn all_conform(&self, terms: &[Term], wanted: Wanted) -> bool
        ensures { IsTrue result ↔ AllConform self.now.declared (wanted_sort self.now.sorts wanted) (of_list terms.now) }
    {
        for term in terms {
            if !self.conforms(term, wanted) {
                return false;
            }
        }
        true
    }

    // Whether each is of the sort of its own number, and there are as many.
    #[cycle(conforms)]
    fn each_conforms(&self, terms: &[Term], numbers: &[usize]) -> bool
        ensures { (ss : List Sort) → AreNumbers self.now.sorts numbers.now ss
            → IsTrue result ↔ HaveSorts self.now.declared ss (of_list terms.now) }
    {
        if terms.len() != numbers.len() {
            return false;
        }
        for i in 0..terms.len() {
            let wanted = Wanted {
                number: Some(numbers[i]),
            };
            if !self.conforms(&terms[i], wanted) {
                return false;
            }
        }
        true
    }
}

impl Signature {
    /// What child `index` of the term wants, counted from 0, if a place wants the term.
    pub fn wanted_inside(&self, wanted: Wanted, term: &Term, index: usize) -> Wanted
        ensures { (inside : Option Sort)
            → WantsInside self.now.declared (wanted_sort self.now.sorts wanted) term.now index inside
            → wanted_sort self.now.sorts result ≡ inside }
    {
        let count = term.child_count();
        match term.kind() {
            Kind::Integer(_) => Wanted::anything(),
            Kind::List => match self.table.elements(wanted) {
                Some(element) => element,
                None => Wanted::anything(),
            },
            Kind::Tuple => match self.table.parts(wanted, count) {
                Parts::Of(numbers) => numbered(numbers, index),
                Parts::Any | Parts::Refused => Wanted::anything(),
            },
            Kind::Application(name) => match self.form(name, count) {
                Some(form) => numbered(&form.arguments, index),
                None => Wanted::anything(),
            },
        }
    }
}

// The sort of the number at the index.
fn numbered(numbers: &[usize], index: usize) -> Wanted
    ensures { result.number ≡ slice_get numbers.now index }
{
    Wanted {
        number: at(numbers, index).copied(),
    }
}
