//! Lists that grow during parsing, as contracts see them.
ghost use Rattle.std.specs.Prelude.{◌≡◌, ◌∷◌, ◌++◌, [], IfOk};

use std::alloc::Global;
use std::marker::Model;
use term_core::NoMemory;

/// Names, patterns or strategies, in the order of the text.
#[derive(Drop)]
pub struct ItemList<T: Drop> {
    items: Vec<T>,
}

impl<T: Drop> Model for ItemList<T> {
    ghost use Rattle.std.specs.Prelude.{List};
    ghost use Rattle.std.specs.Coded.{coded_list};

    ghost Value = { List T };

    ghost coded = { coded_list T.code };

    ghost view = { λ a. a.items.items };
}

impl<T: Drop> ItemList<T> {
    /// The empty list. It takes no memory.
    pub fn new(alloc: Global) -> ItemList<T>
        ensures { result ≡ [] }
    {
        ItemList {
            items: Vec::new(alloc),
        }
    }

    /// These items.
    pub fn from_vec(items: Vec<T>) -> ItemList<T>
        ensures { result ≡ items.items }
    {
        ItemList { items }
    }

    /// The list with one more item.
    pub fn with(self, item: T) -> Result<ItemList<T>, NoMemory>
        ensures { IfOk result (λ more. more ≡ self ++ item ∷ []) }
    {
        let ItemList { mut items } = self;
        items.push(item)?;
        Ok(ItemList { items })
    }

    pub fn as_slice(&self) -> &[T]
        ensures { result.now ≡ self.now }
    {
        self.items.as_slice()
    }

    pub fn into_vec(self) -> Vec<T>
        ensures { result.items ≡ self }
    {
        self.items
    }
}
