//! The slots of names.
#![tactic(auto, using(crate::proofs::PlaceLemmas::finding))]

ghost use Rattle.std.specs.Prelude.{◌≡◌, ◌<◌, length, IfSome, option_map};
ghost use Rattle.std.specs.FinMap as finmap;
ghost use Rattle.term_changes.specs.Slots.{contents};
ghost use Rattle.session_history.specs.Unfolded.{HasTree, HasText};

use change_log::Store;
use term_core::{Label, Term};

/// The slot of the name's tree, and the tree, if there is one.
pub fn find_tree<'a>(store: &'a Store, name: &Label) -> Option<(usize, &'a Term)>
    ensures some { IfSome result (λ found. HasTree store.now name.now found.0 found.1.now) }
    ensures within { IfSome result (λ found. found.0 < length store.now.trees) }
    ensures value { option_map (λ found. found.1.now) result
        ≡ finmap.get (contents store.now).trees name.now }
{
    let Some(slot) = store.find_tree(name) else {
        return None;
    };
    let Some(tree) = store.tree(slot) else {
        return None;
    };
    Some((slot, tree))
}

/// The slot of the name's module, and its text, if there is one.
pub fn find_text<'a>(store: &'a Store, name: &Label) -> Option<(usize, &'a [u8])>
    ensures some { IfSome result (λ found. HasText store.now name.now found.0 found.1.now) }
    ensures within { IfSome result (λ found. found.0 < length store.now.modules) }
    ensures value { option_map (λ found. found.1.now) result
        ≡ finmap.get (contents store.now).modules name.now }
{
    let Some(slot) = store.find_module(name) else {
        return None;
    };
    let Some(text) = store.module(slot) else {
        return None;
    };
    Some((slot, text))
}
