//! The text that restores the trees and the modules.

ghost use Rattle.std.specs.Prelude.{◌≡◌, ◌≤◌, ◌++◌, ◌∷◌, [], codes, Some, OnOk, OnErr, vec_capacity};
ghost use Rattle.std.specs.Option.{option_map_or};
ghost use Rattle.std.specs.List.{flat_map, AllByRecursion};
ghost use Rattle.std.specs.FinMap as finmap;
ghost use Rattle.term_core.specs.Terms.{IsTerm};
ghost use Rattle.term_core.specs.Word.{label_of};
ghost use Rattle.aterm_text.specs.inside.Printing.{Extends};
ghost use Rattle.term_changes.specs.Slots.{contents};
ghost use Rattle.session_history.specs.Dump.{tree_line, after_name, module_line, module_lines, grouped, dumped, IsNamedTerm, AreNamedTerms};

use crate::Timeline;
use aterm_text::print;
use term_core::{Label, NoMemory, Term};

impl Timeline {
    /// Appends a line for each tree and a command for each module, in byte order of the names. If
    /// memory can't grow, `out` is unchanged.
    pub fn dump(&self, out: &mut Vec<u8>) -> Result<(), NoMemory>
        ensures ok { OnOk result (out.new.items ≡ out.old.items ++ dumped (contents self.now.store)) }
        ensures terms { OnOk result (AreNamedTerms (contents self.now.store)) }
        ensures err { OnErr result (out.new.items ≡ out.old.items) }
        ensures room { vec_capacity out.old ≤ vec_capacity out.new }
    {
        let trees = self.tree_names()?;
        let modules = self.module_names()?;
        let length = out.len();
        let dumped = self.dump_all(&trees, &modules, out);
        if dumped.is_err() {
            out.truncate(length);
        }
        dumped
    }

    // The trees of these names, followed by these modules.
    fn dump_all(
        &self,
        trees: &[Label],
        modules: &[Label],
        out: &mut Vec<u8>,
    ) -> Result<(), NoMemory>
        ensures ok { OnOk result (out.new.items ≡ out.old.items ++ (flat_map (λ name. option_map_or
            (tree_line name) (finmap.get (contents self.now.store).trees name) []) trees.now
            ++ grouped (contents self.now.store) modules.now)) }
        ensures terms { OnOk result (AllByRecursion (IsNamedTerm (contents self.now.store)) trees.now
            × AllByRecursion (λ name. label_of name ≡ Some name) modules.now) }
        ensures err { Extends out.old.items out.new.items }
        ensures room { vec_capacity out.old ≤ vec_capacity out.new }
    {
        self.dump_trees(trees, out)?;
        self.dump_modules(modules, out)
    }

    // A line for each of these names that has a tree.
    fn dump_trees(&self, names: &[Label], out: &mut Vec<u8>) -> Result<(), NoMemory>
        ensures ok { OnOk result (out.new.items ≡ out.old.items ++ flat_map (λ name. option_map_or
            (tree_line name) (finmap.get (contents self.now.store).trees name) []) names.now) }
        ensures terms { OnOk result (AllByRecursion (IsNamedTerm (contents self.now.store))
            names.now) }
        ensures err { Extends out.old.items out.new.items }
        ensures room { vec_capacity out.old ≤ vec_capacity out.new }
    {
        for name in names {
            self.dump_tree(name, out)?;
        }
        Ok(())
    }

    fn dump_tree(&self, name: &Label, out: &mut Vec<u8>) -> Result<(), NoMemory>
        ensures ok { OnOk result (out.new.items ≡ out.old.items ++ option_map_or
            (tree_line name.now) (finmap.get (contents self.now.store).trees name.now) []) }
        ensures term { OnOk result (IsNamedTerm (contents self.now.store) name.now) }
        ensures err { Extends out.old.items out.new.items }
        ensures room { vec_capacity out.old ≤ vec_capacity out.new }
    {
        match self.tree(name) {
            None => Ok(()),
            Some(tree) => print_line(name, tree, out),
        }
    }

    // The modules of these names in a group, or nothing if there are none.
    fn dump_modules(&self, names: &[Label], out: &mut Vec<u8>) -> Result<(), NoMemory>
        ensures ok { OnOk result (out.new.items ≡ out.old.items
            ++ grouped (contents self.now.store) names.now) }
        ensures labels { OnOk result
            (AllByRecursion (λ name. label_of name ≡ Some name) names.now) }
        ensures err { Extends out.old.items out.new.items }
        ensures room { vec_capacity out.old ≤ vec_capacity out.new }
    {
        if names.is_empty() {
            return Ok(());
        }
        out.extend_from_slice(b"begin\n")?;
        self.dump_texts(names, out)?;
        out.extend_from_slice(b"commit\n")?;
        Ok(())
    }

    // A command for each of these names that has a module.
    fn dump_texts(&self, names: &[Label], out: &mut Vec<u8>) -> Result<(), NoMemory>
        ensures ok { OnOk result (out.new.items ≡ out.old.items
            ++ module_lines (contents self.now.store) names.now) }
        ensures labels { OnOk result
            (AllByRecursion (λ name. label_of name ≡ Some name) names.now) }
        ensures err { Extends out.old.items out.new.items }
        ensures room { vec_capacity out.old ≤ vec_capacity out.new }
    {
        for name in names {
            self.dump_text(name, out)?;
        }
        Ok(())
    }

    fn dump_text(&self, name: &Label, out: &mut Vec<u8>) -> Result<(), NoMemory>
        ensures ok { OnOk result (out.new.items ≡ out.old.items ++ option_map_or
            (module_line name.now) (finmap.get (contents self.now.store).modules name.now) []) }
        ensures label { label_of name.now ≡ Some name.now }
        ensures err { Extends out.old.items out.new.items }
        ensures room { vec_capacity out.old ≤ vec_capacity out.new }
    {
        let word = name.bytes();
        match self.module_text(name) {
            None => Ok(()),
            Some(text) => write_module(word, text, out),
        }
    }
}

fn print_line(name: &Label, tree: &Term, out: &mut Vec<u8>) -> Result<(), NoMemory>
    ensures ok { OnOk result (out.new.items ≡ out.old.items ++ tree_line name.now tree.now) }
    ensures term { OnOk result ((label_of name.now ≡ Some name.now) × IsTerm tree.now) }
    ensures err { Extends out.old.items out.new.items }
    ensures room { vec_capacity out.old ≤ vec_capacity out.new }
{
    out.extend_from_slice(b"tree ")?;
    out.extend_from_slice(name.bytes())?;
    out.push(b' ')?;
    print(tree, out)?;
    out.push(b'\n')?;
    Ok(())
}

fn write_module(name: &[u8], text: &[u8], out: &mut Vec<u8>) -> Result<(), NoMemory>
    ensures ok { OnOk result (out.new.items ≡ out.old.items ++ module_line name.now text.now) }
    ensures err { Extends out.old.items out.new.items }
    ensures room { vec_capacity out.old ≤ vec_capacity out.new }
{
    out.extend_from_slice(b"module ")?;
    out.extend_from_slice(name)?;
    write_text(text, out)?;
    out.push(b'\n')?;
    Ok(())
}

fn write_text(text: &[u8], out: &mut Vec<u8>) -> Result<(), NoMemory>
    ensures ok { OnOk result (out.new.items ≡ out.old.items ++ after_name text.now) }
    ensures err { Extends out.old.items out.new.items }
    ensures room { vec_capacity out.old ≤ vec_capacity out.new }
{
    if text.is_empty() {
        return Ok(());
    }
    out.push(b' ')?;
    out.extend_from_slice(text)?;
    Ok(())
}
