//! Putting replaced subterms into the tree.

ghost use Rattle.std.specs.Prelude.{◌≡◌, ◌++◌, OnOk, OnErr};
ghost use Rattle.term_changes.specs.Entries.{before, after, flipped_forward, Fits, FitsForward};

use change_log::{Log, Plan, Store};
use term_core::NoMemory;

/// Makes the planned changes in order, through the log.
///
/// If memory can't grow, store and log stay as they were.
pub(crate) fn put_in_place(plan: Plan, store: &mut Store, log: &mut Log) -> Result<(), NoMemory>
    ensures store { OnOk result (store.new ≡ after plan store.old) }
    ensures log { OnOk result (log.new ≡ log.old ++ flipped_forward plan store.old) }
    ensures leads_back { OnOk result (before log.new store.new ≡ before log.old store.old) }
    ensures fits { OnOk result (Fits log.old store.old → FitsForward plan store.old → Fits log.new store.new) }
    ensures store_err { OnErr result (store.new ≡ store.old) }
    ensures log_err { OnErr result (log.new ≡ log.old) }
{
    log.make(store, plan)?;
    Ok(())
}
