//! Slots whose first change is undone.

use change_log::{Entry, Log, Store};
use std::alloc::Global;
use std::test::Fail;
use term_core::{Label, NoMemory, Term};

// A store with a slot for a tree and one for a module, both without content, and a log.
#[derive(Drop)]
struct Slots {
    store: Store,
    tree: usize,
    module: usize,
    log: Log,
}

fn new_slots(alloc: Global, name: &Label) -> Result<Slots, NoMemory> {
    let mut store = Store::new(alloc);
    let tree = store.tree_slot(name)?;
    let module = store.module_slot(name)?;
    let log = Log::new(alloc);
    Ok(Slots {
        store,
        tree,
        module,
        log,
    })
}

// Whether the slot of the tree has one after it was set, and none once that is undone.
fn is_tree_undone(alloc: Global, name: &Label) -> Result<bool, NoMemory> {
    let mut it = new_slots(alloc, name)?;
    let entry = Entry::tree(it.tree, Some(Term::integer(alloc, 1)));
    it.log.push(&mut it.store, entry)?;
    let was_set = it.store.tree(it.tree).is_some();
    it.log.flip_back(&mut it.store);
    Ok(was_set && it.store.tree(it.tree).is_none())
}

// Whether the slot of the module has a text after it was set, and none once that is undone.
fn is_text_undone(alloc: Global, name: &Label) -> Result<bool, NoMemory> {
    let mut it = new_slots(alloc, name)?;
    let entry = Entry::text(it.module, Some(Vec::from_slice(alloc, b"module m")?));
    it.log.push(&mut it.store, entry)?;
    let was_set = it.store.module(it.module).is_some();
    it.log.flip_back(&mut it.store);
    Ok(was_set && it.store.module(it.module).is_none())
}

#[test]
fn undone_changes_leave_no_content(rt: HostRuntime) -> Result<(), Fail> {
    let name = Label::read(rt.alloc(), b"t")?;
    assert!(rt; is_tree_undone(rt.alloc(), &name)?);
    assert!(rt; is_text_undone(rt.alloc(), &name)?);
    Ok(())
}
