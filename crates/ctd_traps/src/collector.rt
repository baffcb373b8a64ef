//! What is found piece by piece.

ghost use Rattle.std.specs.Prelude.{◌≡◌, ◌∷◌, [], IfOk, None, Some};
ghost use Rattle.ctd_traps.specs.calls.Collector.{Adds, items_in};

use std::alloc::{AllocError, Global};

/// Items that are found one after the other. Once memory ran out for one, they are not complete, and `finish` says so.
pub struct Collector<T> {
    pub(crate) items: Vec<T>,
    pub(crate) is_complete: bool,
}

impl<T: Drop> Collector<T> {
    /// No items.
    pub fn new(alloc: Global) -> Collector<T>
        ensures empty { items_in result ≡ Some [] }
    {
        Collector {
            items: Vec::new(alloc),
            is_complete: true,
        }
    }

    /// Adds an item.
    pub fn add(&mut self, item: T)
        ensures adds { Adds (items_in self.old) (item ∷ []) (items_in self.new) }
    {
        if self.items.push(item).is_err() {
            self.is_complete = false;
        }
    }

    /// Says that memory ran out for an item.
    pub fn fail(&mut self)
        ensures incomplete { items_in self.new ≡ None }
    {
        self.is_complete = false;
    }

    /// The items; an error where memory ran out for one.
    pub fn finish(self) -> Result<Vec<T>, AllocError>
        ensures all { IfOk result (λ items. items_in self ≡ Some items.items) }
    {
        let Collector { items, is_complete } = self;
        if is_complete {
            Ok(items)
        } else {
            Err(AllocError)
        }
    }
}

impl<T: Drop> Drop for Collector<T> {
    fn drop(self) {
        let Collector {
            items: _,
            is_complete: _,
        } = self;
    }
}
