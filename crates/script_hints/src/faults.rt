//! Faults that the checker finds in modules and strategies, and names that there are in place of one
//! that isn't.

use crate::explainer::Explainer;
use crate::names::Near;
use crate::strategies::module_defining;
use crate::stuck::instead_of;
use diagnostic::{Fill, QUOTED, Span, Spot, first_characters, say};
use hint_text::{
    CommandParts, Ground, KnownModule, ModuleTexts, arity_of, bytes_at, declaring, module_of,
    parts_of,
};
use prim_core::Meaning;
use session_history::Refusal;
use std::alloc::Global;
use strategy_check::{FaultKind, FoundFault, all_faults, all_strategy_faults};
use strategy_syntax::{Definition, Module, Place};
use strategy_tokens::TokenPlace;
use term_core::{Label, Name, NoMemory};

// The most faults that are listed.
const LISTED: usize = 20;

/// A fault: its kind, the name, and numbers of strategies and of terms.
#[derive(Clone, Copy)]
pub struct Fault<'a> {
    pub kind: FaultKind,
    pub name: &'a Name,
    pub strategies: u64,
    pub terms: u64,
}

/// The fault that a refusal names.
pub fn fault_of(refusal: &Refusal) -> Option<Fault<'_>> {
    match refusal {
        Refusal::Check(kind, name, strategies, terms) => Some(Fault {
            kind: *kind,
            name,
            strategies: *strategies,
            terms: *terms,
        }),
        _ => None,
    }
}

// A definition with a fault.
#[derive(Clone, Copy)]
struct FaultyDefinition<'m> {
    module: KnownModule<'m>,
    definition: &'m Definition,
}

fn found(fault: &FoundFault) -> Fault<'_> {
    Fault {
        kind: fault.kind(),
        name: fault.name(),
        strategies: fault.first(),
        terms: fault.second(),
    }
}

/// The name of the module with the first fault, if one has any.
///
/// Errors: `NoMemory` if memory can't grow.
pub fn faulty_module<M: Meaning>(
    alloc: Global,
    ground: &Ground<'_, M>,
) -> Result<Option<Label>, NoMemory> {
    let parts = parts_of(&[]);
    match ModuleTexts::read(alloc, ground, &parts) {
        Ok(texts) => first_faulty(alloc, ground, &texts, &parts),
        Err(NoMemory) => Err(NoMemory),
    }
}

fn first_faulty<M: Meaning>(
    alloc: Global,
    ground: &Ground<'_, M>,
    texts: &ModuleTexts<'_>,
    parts: &CommandParts<'_>,
) -> Result<Option<Label>, NoMemory> {
    let modules = texts.all(alloc, parts)?;
    let faults = module_faults(alloc, ground, texts, 1)?;
    let first = faults.first().and_then(FoundFault::definition);
    drop(faults);
    match first.and_then(|it| modules.get(it.module)) {
        Some(module) => Ok(Some(module.module.name().try_clone()?)),
        None => Ok(None),
    }
}

// At most so many faults of the modules.
fn module_faults<M: Meaning>(
    alloc: Global,
    ground: &Ground<'_, M>,
    texts: &ModuleTexts<'_>,
    most: usize,
) -> Result<Vec<FoundFault>, NoMemory> {
    all_faults(
        alloc,
        texts.before(),
        texts.new_ones(),
        texts.after(),
        ground.primitives,
        most,
    )
}

impl<'m> Explainer<'_, 'm> {
    /// Appends the word of a fault, its name and its numbers.
    pub fn say_fault_itself(&mut self, fault: Fault<'_>) {
        let (kind, name) = (Fill::Words(fault.kind.word()), Fill::Name(fault.name));
        say!(self.hint; "{} {} {} {}", kind, name, Fill::Number(fault.strategies), Fill::Number(fault.terms));
    }

    /// Refusal 11: where the faults are, and which names and numbers of arguments there are.
    pub fn explain_check<M: Meaning>(
        &mut self,
        ground: &Ground<'_, M>,
        fault: Fault<'_>,
        texts: Option<&ModuleTexts<'_>>,
    ) -> Result<(), NoMemory> {
        let in_strategy = self.strategy_faults(ground)?;
        if let Some(first) = in_strategy.first() {
            let bytes = self.bytes_of(shown_place(first));
            say!(self.hint; "at {}", self.at(bytes));
            self.show(bytes.start);
            self.note_wrong(fault, bytes.start);
            self.say_more(fault, None)?;
            self.say_rest(&in_strategy);
            drop(in_strategy);
            return Ok(());
        }
        drop(in_strategy);
        let in_modules = match texts {
            Some(texts) => module_faults(self.alloc, ground, texts, LISTED)?,
            None => Vec::new(self.alloc),
        };
        if let Some(first) = in_modules.first()
            && let Some(definition) = self.definition_of(first)
        {
            let cause = self.cause_of(fault, &in_modules);
            if let Some((other, _)) = cause {
                let name = other.definition.name().bytes();
                self.hint.note_cause(other.module.name(), name);
            }
            self.say_found(fault, definition, shown_place(first));
            self.say_more(fault, Some(definition))?;
            if let Some((other, lost)) = cause {
                self.say_lost(other, lost);
            }
        } else {
            self.say_more(fault, None)?;
        }
        self.say_rest(&in_modules);
        drop(in_modules);
        Ok(())
    }

    // The faults of the strategy of the command, if it has one.
    fn strategy_faults<M: Meaning>(
        &self,
        ground: &Ground<'_, M>,
    ) -> Result<Vec<FoundFault>, NoMemory> {
        let (Some(kept), true) = (ground.kept, self.parts.is_strategy()) else {
            return Ok(Vec::new(self.alloc));
        };
        match self.strategy()? {
            Some(strategy) => all_strategy_faults(
                self.alloc,
                kept.program(),
                ground.primitives,
                &strategy,
                LISTED,
            ),
            None => Ok(Vec::new(self.alloc)),
        }
    }

    // The definition with a fault.
    fn definition_of(&self, fault: &FoundFault) -> Option<FaultyDefinition<'m>> {
        let index = fault.definition()?;
        let module = self.modules.get(index.module)?;
        Some(FaultyDefinition {
            module: *module,
            definition: module.definitions().get(index.definition)?,
        })
    }

    // The definition of an unknown name with other numbers of arguments, if a name in its body isn't
    // known, either: its head may have lost a parameter. And that other fault.
    fn cause_of<'f>(
        &self,
        fault: Fault<'_>,
        faults: &'f [FoundFault],
    ) -> Option<(FaultyDefinition<'m>, &'f FoundFault)> {
        if !matches!(fault.kind, FaultKind::Unknown) {
            return None;
        }
        for other in faults {
            if matches!(other.kind(), FaultKind::Unknown)
                && let Some(definition) = self.definition_of(other)
                && definition.definition.name().equals(fault.name)
            {
                return Some((definition, other));
            }
        }
        None
    }

    // Says that a definition may have lost a parameter.
    fn say_lost(&mut self, found: FaultyDefinition<'_>, lost: &FoundFault) {
        let (name, definition) = (lost.name().bytes(), found.definition.name().bytes());
        self.hint.help();
        say!(self.hint; "is the parameter {} missing in the head of {}? nothing else has that name", Fill::Quoted(name), Fill::Quoted(definition));
    }

    // Says which module has the fault, in which definition, and where.
    fn say_found(&mut self, fault: Fault<'_>, found: FaultyDefinition<'_>, place: Place) {
        let (module, name) = (found.module, found.definition.name().bytes());
        let sentence = if self.parts.is_strategy() {
            "the modules of the open group have this fault, in {} of the module {}, "
        } else {
            "in {} of the module {}, "
        };
        say!(self.hint; sentence, Fill::Quoted(name), Fill::Quoted(module.name()));
        self.hint.note_cause(module.name(), name);
        let start = self.say_place(module, place);
        if module.is_new {
            self.show(start);
            self.note_wrong(fault, start);
        } else {
            self.hint.show(module.text, start);
        }
    }

    // Notes that the name of the fault is at this place of the text.
    fn note_wrong(&mut self, fault: Fault<'_>, start: usize) {
        let end = start.saturating_add(fault.name.bytes().len());
        self.wrong = Span::within(self.parts.text, start, end);
    }

    // The place in the script, or in the text of a module that was loaded before. Returns the number
    // of bytes before it.
    fn say_place(&mut self, module: KnownModule<'_>, place: Place) -> usize {
        let bytes = bytes_at(module.text, place).unwrap_or(TokenPlace {
            start: 0,
            end: module.text.len(),
        });
        if module.is_new {
            say!(self.hint; "{}", self.at(bytes));
        } else {
            let spot = Spot::in_module(module.name(), module.text, bytes.start, bytes.end);
            say!(self.hint; "{} of its text", Fill::At(spot));
        }
        bytes.start
    }

    // Says of the faults after the first which they are and where.
    fn say_rest(&mut self, faults: &[FoundFault]) {
        for fault in faults.iter().skip(1) {
            self.hint.fault();
            self.hint.words("also ");
            self.say_fault_itself(found(fault));
            if let Some(it) = self.definition_of(fault) {
                let name = Fill::Quoted(it.definition.name().bytes());
                say!(self.hint; ", in {} of the module {}, ", name, Fill::Quoted(it.module.name()));
                let _start = self.say_place(it.module, shown_place(fault));
            } else {
                let bytes = self.bytes_of(shown_place(fault));
                say!(self.hint; ", at {}", self.at(bytes));
            }
        }
    }

    // Says what there is instead, or what is in the way. The fault is in this definition, if it isn't
    // in a strategy.
    fn say_more(
        &mut self,
        fault: Fault<'_>,
        found: Option<FaultyDefinition<'_>>,
    ) -> Result<(), NoMemory> {
        match (fault.kind, found) {
            (FaultKind::Unknown | FaultKind::Undeclared, _) => return self.say_others(fault),
            (FaultKind::Twice, Some(it)) => self.say_earlier(it),
            (FaultKind::Clash, Some(it)) => self.say_clash(it.module.name(), fault),
            (FaultKind::Twice | FaultKind::Clash, None) => {}
            (FaultKind::Wild, _) => self.say_advice("`_` and `x@p` only match; they build nothing"),
            (FaultKind::Parameter, _) if fault.strategies == 0 && fault.terms == 0 => {
                self.say_advice("the name comes twice in one list");
            }
            (FaultKind::Parameter, _) => self.say_advice("a strategy parameter takes no arguments"),
            (FaultKind::Primitive, _) => {
                self.hint.note();
                let name = Fill::Quoted(fault.name.bytes());
                say!(self.hint; "no primitive {} takes {}", name, Fill::Count(fault.strategies, "term"));
            }
        }
        Ok(())
    }

    // Says where an earlier module defines what a definition does.
    fn say_earlier(&mut self, second: FaultyDefinition<'_>) {
        for earlier in self.modules {
            if earlier.name() != second.module.name()
                && let Some(first) = earlier
                    .definitions()
                    .iter()
                    .find(|it| is_like(it, second.definition))
            {
                let earlier = *earlier;
                self.hint.note();
                say!(self.hint; "the module {} defines it, too, at ", Fill::Quoted(earlier.name()));
                let _start = self.say_place(earlier, first.place().token(0));
                return;
            }
        }
    }

    // Says which module defines the name, and which declares it as a constructor.
    fn say_clash(&mut self, defining: &[u8], fault: Fault<'_>) {
        let declaring = declaring(self.modules, fault.name, fault.strategies).map(|it| it.name());
        let sentence = match declaring {
            None => "the module {} defines it",
            Some(name) if name == defining =>
                "the module {} both defines it and declares it as a constructor",
            Some(_) => "the module {} defines it, and the module {} declares it as a constructor",
        };
        let declaring = Fill::Quoted(declaring.unwrap_or(&[]));
        self.hint.note();
        say!(self.hint; sentence, Fill::Quoted(defining), declaring);
    }

    // ---- other names

    // Says which definitions and constructors have the name with other numbers of arguments, or that
    // the library or a module of `strategies/` defines it, or what to write in place of a form that
    // isn't here, or else which name is near.
    fn say_others(&mut self, fault: Fault<'_>) -> Result<(), NoMemory> {
        let instead = instead_of(fault.name.bytes());
        let defining = module_defining(fault.name.bytes());
        let is_unknown = matches!(fault.kind, FaultKind::Unknown);
        let mut near = Near::none();
        for known in self.modules {
            self.offer_names(&mut near, known.module.module(), fault)?;
        }
        if near.far == 0 {
            self.say_near("{} takes ", fault, near);
            // Terms may be meant where the strategies are: `add (x,y)` for `<add> (x,y)`.
            if is_unknown && near.arity == (0, 0) && fault.strategies > 0 {
                let name = Fill::Bytes(first_characters(near.name, QUOTED));
                say!(self.hint; "; `<{}> p` applies it to a term", name);
            }
        } else if is_unknown && let Some(arity) = self.arity_in_library(fault.name)? {
            let library = Near {
                far: 0,
                name: fault.name.bytes(),
                arity,
            };
            self.say_near(
                "the library defines {}, but `--library` wasn't given; it takes ",
                fault,
                library,
            );
        } else if !instead.is_empty() {
            self.say_advice(instead);
        } else if is_unknown && !defining.is_empty() {
            let module = Fill::Words(defining);
            self.hint.help();
            say!(self.hint; "the module `{}` of `strategies/` defines it; `--module {}=strategies/{}.str` loads it", module, module, module);
        } else if !near.name.is_empty() {
            self.say_near("did you mean {}? it takes ", fault, near);
        }
        Ok(())
    }

    // Adds a line that begins with a sentence with the name, and says what it takes.
    fn say_near(&mut self, sentence: &str, fault: Fault<'_>, near: Near<'_>) {
        let is_pattern = matches!(fault.kind, FaultKind::Undeclared);
        let first = Fill::Count(near.arity.0, if is_pattern { "term" } else { "strategy" });
        let terms = Fill::Count(near.arity.1, "term");
        self.hint.help();
        say!(self.hint; sentence, Fill::Quoted(near.name));
        match near.arity {
            (0, 0) => self.hint.words("no arguments"),
            (_, 0) => say!(self.hint; "{}", first),
            (0, _) => say!(self.hint; "{}", terms),
            _ => say!(self.hint; "{} and {}", first, terms),
        }
        if near.far > 0 {
            self.hint.replace(self.wrong, near.name);
        }
    }

    // Offers the names of a module that may stand where the wrong one does.
    fn offer_names<'n>(
        &self,
        near: &mut Near<'n>,
        module: &'n Module,
        fault: Fault<'_>,
    ) -> Result<(), NoMemory> {
        let wanted = fault.name.bytes();
        for placed in module.constructors() {
            let it = placed.item();
            let arity = (it.arity() as u64, 0);
            near.offer(self.alloc, wanted, it.name().bytes(), arity)?;
        }
        if matches!(fault.kind, FaultKind::Unknown) {
            for it in module.definitions() {
                near.offer(self.alloc, wanted, it.name().bytes(), arity_of(it))?;
            }
        }
        Ok(())
    }

    // The numbers of arguments of the definition of this name in the library, if it has one and wasn't
    // loaded.
    fn arity_in_library(&self, name: &Name) -> Result<Option<(u64, u64)>, NoMemory> {
        let Some(text) = self.command.library else {
            return Ok(None);
        };
        let library = module_of(self.alloc, text)?;
        let mut definitions = library.definitions().iter();
        let found = definitions.find(|it| it.name().equals(name)).map(arity_of);
        drop(library);
        Ok(found)
    }
}

// What is shown of a fault: of a primitive its name, which comes after `prim` and `(`.
fn shown_place(fault: &FoundFault) -> Place {
    match fault.kind() {
        FaultKind::Primitive => fault.place().token(2),
        _ => fault.place(),
    }
}

// Whether both have the same name and take as many arguments.
fn is_like(definition: &Definition, other: &Definition) -> bool {
    definition.name().equals(other.name()) && arity_of(definition) == arity_of(other)
}
