//! What the modules of a session declare with sorts.
#![tactic(auto, using(crate::proofs::SortingLemmas::declaring))]

ghost use Rattle.std.specs.Prelude.{◌≡◌, ◌⊎◌, ◌∷◌, [], IfOk, IfErr};
ghost use Rattle.term_sorts.specs.Signatures.{and_constructor, and_injection};
ghost use Rattle.session_modules.specs.Sorting.{IsClash, declared_in};
ghost use Rattle.session_modules.specs.inside.Declaring.{ConstructorClash, InjectionClash, and_constructors, and_injections};

use std::alloc::Global;
use std::fmt;
use strategy_check::NamedModule;
use term_core::{Name, NoMemory};
use term_sorts::{Declaration, Injection, Signature};
use thiserror::Error;

/// Why modules have no signature.
#[derive(Drop, Error)]
pub enum SortFault {
    /// Memory couldn't grow.
    #[error("memory")]
    Memory,
    /// What they declare doesn't agree: the name of a constructor or a sort, and its number of
    /// arguments.
    #[error("sorts")]
    Clash(Name, usize),
}

impl fmt::Debug for SortFault {
    fn fmt<W: fmt::Write>(&self, f: &mut fmt::Formatter<W>) -> Result<(), fmt::Error> {
        fmt::Display::fmt(self, f)
    }
}

impl From<NoMemory> for SortFault {
    ghost use Rattle.std.specs.Prelude.{◌≡◌};
    ghost use Rattle.session_modules.specs.declared.sorting.SortFault.{SortFault};

    ghost from_gives = { λ _ e. e ≡ SortFault.Memory };

    fn from(_refused: NoMemory) -> SortFault {
        SortFault::Memory
    }
}

/// The signature of all that the modules declare, if this agrees. Else the fault has the first
/// constructor that has another declaration before; where there is none, the sort of the first
/// injection by which some sort takes two sorts of lists, or two of tuples of as many terms.
pub fn signature_of(alloc: Global, modules: &[NamedModule]) -> Result<Signature, SortFault>
    ensures ok { IfOk result (λ signature. signature.declared ≡ declared_in modules.now) }
    ensures fault { IfErr result (λ fault. (fault ≡ SortFault.Memory)
        ⊎ IsClash (declared_in modules.now) fault) }
{
    let mut signature = Signature::new(alloc)?;
    for named in modules {
        signature = with_constructors(signature, named.module().declarations())?;
    }
    for named in modules {
        signature = with_injections(alloc, signature, named.module().injections())?;
    }
    Ok(signature)
}

// The signature with these declarations, too.
fn with_constructors(
    mut signature: Signature,
    declarations: &[Declaration],
) -> Result<Signature, SortFault>
    ensures ok { IfOk result (λ made.
        made.declared ≡ and_constructors signature.declared declarations.now) }
    ensures fault { IfErr result (λ fault. (fault ≡ SortFault.Memory)
        ⊎ ConstructorClash signature.declared declarations.now fault) }
{
    for declaration in declarations {
        signature = with_constructor(signature, declaration)?;
    }
    Ok(signature)
}

// The signature with this declaration, too.
fn with_constructor(signature: Signature, declaration: &Declaration) -> Result<Signature, SortFault>
    ensures ok { IfOk result (λ made.
        made.declared ≡ and_constructor signature.declared declaration.now) }
    ensures fault { IfErr result (λ fault. (fault ≡ SortFault.Memory)
        ⊎ ConstructorClash signature.declared (declaration.now ∷ []) fault) }
{
    signature.declarations_agree();
    match signature.with_constructor(declaration)? {
        Some(made) => Ok(made),
        None => Err(clash(declaration.name(), declaration.arguments().len())),
    }
}

// The signature with these injections, too.
fn with_injections(
    alloc: Global,
    mut signature: Signature,
    injections: &[Injection],
) -> Result<Signature, SortFault>
    ensures ok { IfOk result (λ made.
        made.declared ≡ and_injections signature.declared injections.now) }
    ensures fault { IfErr result (λ fault. (fault ≡ SortFault.Memory)
        ⊎ InjectionClash signature.declared injections.now fault) }
{
    for injection in injections {
        signature = with_injection(alloc, signature, injection)?;
    }
    Ok(signature)
}

// The signature with this injection, too.
fn with_injection(
    alloc: Global,
    signature: Signature,
    injection: &Injection,
) -> Result<Signature, SortFault>
    ensures ok { IfOk result (λ made.
        made.declared ≡ and_injection signature.declared injection.now) }
    ensures fault { IfErr result (λ fault. (fault ≡ SortFault.Memory)
        ⊎ InjectionClash signature.declared (injection.now ∷ []) fault) }
{
    signature.declarations_agree();
    match signature.with_injection(alloc, injection)? {
        Some(made) => Ok(made),
        None => Err(clash(injection.to().name(), injection.to().arguments().len())),
    }
}

// The fault of declarations that don't agree, with this name and so many arguments.
fn clash(name: &Name, count: usize) -> SortFault
    ensures { (result ≡ SortFault.Memory) ⊎ (result ≡ SortFault.Clash name.now count) }
{
    match name.try_clone() {
        Ok(name) => SortFault::Clash(name, count),
        Err(_) => SortFault::Memory,
    }
}
