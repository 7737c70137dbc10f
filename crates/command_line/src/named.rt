//! The values of the options that name a file: NAME=FILE.

ghost use Rattle.std.specs.Prelude.{◌≡◌, ◌≤◌, ◌&&◌, ◌<◌, ◌⊎◌, IfOk, IfErr, true, false, map, length};
ghost use Rattle.std.specs.List.{list_all};
ghost use Rattle.command_line.specs.Line.{as_given, file_of, is_named, modules_of, name_of, trees_of};
ghost use Rattle.command_line.specs.inside.Malformed.{IfMalformed};

use std::alloc::{AllocError, AllocFailed, Global};
use term_core::{Label, LabelFault};

/// The name of a tree or a module, and the file that goes with it.
#[derive(Debug, Drop)]
pub struct Named<'a> {
    pub name: Label,
    pub file: &'a str,
}

/// A file that is loaded before the script.
#[derive(Debug, Drop)]
pub enum Load<'a> {
    Module(Named<'a>),
    Tree(Named<'a>),
}

impl<'a> Load<'a> {
    /// The file.
    pub fn file(&self) -> &'a str
        ensures { result.now ≡ file_of self.now }
    {
        match self {
            Load::Module(named) | Load::Tree(named) => named.file,
        }
    }

    /// The name of the module or the tree.
    pub fn name(&self) -> &Label
        ensures { result.now ≡ name_of self.now }
    {
        match self {
            Load::Module(named) | Load::Tree(named) => &named.name,
        }
    }
}

/// Why the value of an option isn't taken.
#[derive(Clone, Copy)]
pub enum Untaken<'a> {
    /// It isn't a name, `=` and a file. The first part is the option.
    Malformed(&'static str, &'a str),
    /// Memory couldn't grow.
    Memory,
}

impl From<AllocError> for Untaken<'_> {
    ghost use Rattle.std.specs.Prelude.{◌≡◌};
    ghost use Rattle.command_line.specs.declared.named.Untaken.{Untaken};

    ghost from_gives = { λ _ e. e ≡ Untaken.Memory };

    fn from(_refused: AllocError) -> Self {
        Untaken::Memory
    }
}

impl<T: Drop> From<AllocFailed<T>> for Untaken<'_> {
    ghost use Rattle.std.specs.Prelude.{◌≡◌};
    ghost use Rattle.command_line.specs.declared.named.Untaken.{Untaken};

    ghost from_gives = { λ _ e. e ≡ Untaken.Memory };

    fn from(_refused: AllocFailed<T>) -> Self {
        Untaken::Memory
    }
}

/// The name and the file of a value of this option. The name ends at the first `=`.
pub fn read_named<'a>(
    alloc: Global,
    option: &'static str,
    value: &'a str,
) -> Result<Named<'a>, Untaken<'a>>
    ensures given { IfOk result (λ named. as_given named ≡ value.now) }
    ensures named { IfOk result (λ _. is_named value.now ≡ true) }
    ensures malformed { IfErr result (λ untaken. IfMalformed untaken (is_named value.now ≡ false)) }
{
    let Some((name, file)) = value.split_once('=') else {
        return Err(Untaken::Malformed(option, value));
    };
    match Label::read(alloc, name.as_bytes()) {
        Ok(name) => Ok(Named { name, file }),
        Err(LabelFault::Name) => Err(Untaken::Malformed(option, value)),
        Err(LabelFault::Memory) => Err(Untaken::Memory),
    }
}

/// The names and files of the values of this option.
pub fn read_all<'a>(
    alloc: Global,
    option: &'static str,
    values: &[&'a str],
) -> Result<Vec<Named<'a>>, Untaken<'a>>
    ensures given { IfOk result (λ all. map as_given all.items ≡ map (λ value. value.now) values.now) }
    ensures named { IfOk result (λ _. list_all is_named (map (λ value. value.now) values.now) ≡ true) }
    ensures malformed { IfErr result (λ untaken. IfMalformed untaken
        (list_all is_named (map (λ value. value.now) values.now) ≡ false)) }
{
    let mut all = Vec::with_capacity(alloc, values.len())?;
    for value in values {
        match read_named(alloc, option, value) {
            Ok(named) => all.push(named)?,
            Err(untaken) => return Err(untaken),
        }
    }
    Ok(all)
}

/// The files that are loaded, in the order of the command line: the values for modules and for
/// trees, each with their places among the words.
pub fn in_order<'a>(
    alloc: Global,
    modules: &[&'a str],
    module_places: &[usize],
    trees: &[&'a str],
    tree_places: &[usize],
) -> Result<Vec<Load<'a>>, Untaken<'a>>
    ensures modules { IfOk result (λ loads. map as_given (modules_of loads.items)
        ≡ map (λ value. value.now) modules.now) }
    ensures trees { IfOk result (λ loads. map as_given (trees_of loads.items)
        ≡ map (λ value. value.now) trees.now) }
    ensures named { IfOk result (λ _. (list_all is_named (map (λ value. value.now) modules.now)
        && list_all is_named (map (λ value. value.now) trees.now)) ≡ true) }
    ensures malformed { IfErr result (λ untaken. IfMalformed untaken
        ((list_all is_named (map (λ value. value.now) modules.now)
        && list_all is_named (map (λ value. value.now) trees.now)) ≡ false)) }
{
    let mut loads = Vec::new(alloc);
    let mut next_module = 0;
    let mut next_tree = 0;
    while next_module < modules.len() || next_tree < trees.len() {
        let is_module = next_tree >= trees.len()
            || (next_module < modules.len()
                && comes_before(module_places, next_module, tree_places, next_tree));
        if is_module {
            match read_named(alloc, "module", modules[next_module]) {
                Ok(named) => loads.push(Load::Module(named))?,
                Err(untaken) => return Err(untaken),
            }
            next_module += 1;
        } else {
            match read_named(alloc, "tree", trees[next_tree]) {
                Ok(named) => loads.push(Load::Tree(named))?,
                Err(untaken) => return Err(untaken),
            }
            next_tree += 1;
        }
    }
    Ok(loads)
}

// Whether the first place comes before the second.
fn comes_before(places: &[usize], at: usize, others: &[usize], other_at: usize) -> bool {
    match (places.get(at), others.get(other_at)) {
        (Some(place), Some(other)) => place < other,
        _ => true,
    }
}
