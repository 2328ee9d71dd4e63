//! The entries of a height.

ghost use Rattle.std.specs.Prelude.{◌≡◌, [], Some, OnOk, OnErr, option_copied, if◌then◌else◌};
ghost use Rattle.namespace_id.specs.declared.namespaces.Namespace.{Namespace as Name};
ghost use Rattle.blob_feed.specs.Followers.{entry_in, has_entry, is_name};

use crate::Entry;
use namespace_id::{Namespace, NoMemory};
use std::alloc::Global;
use std::collections::BTreeMap;
use std::marker::Model;

/// The entries of a height, by namespace.
#[derive(Drop)]
pub(crate) struct Feed {
    entries: BTreeMap<Namespace, Entry>,
}

impl Model for Feed {
    ghost use Rattle.std.specs.Prelude.{List};
    ghost use Rattle.namespace_id.specs.declared.namespaces.Namespace.{Namespace as Name};
    ghost use Rattle.blob_feed.specs.declared.entries.Entry.{Entry as Kept};

    ghost Value = { List (Name × Kept) };

    ghost view = { λ f. f.entries.entries };
}

impl Feed {
    /// No entries. It takes no memory.
    pub(crate) fn new(alloc: Global) -> Feed
        ensures { result ≡ [] }
    {
        Feed {
            entries: BTreeMap::new(alloc),
        }
    }

    /// The entry of a namespace; none where there is none.
    pub(crate) fn get(&self, namespace: &Namespace) -> Option<&Entry>
        ensures { option_copied result ≡ entry_in self.now namespace.now }
    {
        self.entries.get(namespace)
    }

    /// Whether a namespace has an entry.
    pub(crate) fn has(&self, namespace: &Namespace) -> bool
        ensures { result ≡ has_entry self.now namespace.now }
    {
        self.entries.contains_key(namespace)
    }

    /// Puts the entry of a namespace.
    ///
    /// It refuses only where there is no memory. Then the entry is dropped, and nothing has
    /// changed.
    pub(crate) fn put(&mut self, namespace: Namespace, entry: Entry) -> Result<(), NoMemory>
        ensures put { OnOk result ((name : Name) → entry_in self.new name ≡
            (if is_name namespace name then Some entry else entry_in self.old name)) }
        ensures unchanged { OnErr result (self.new ≡ self.old) }
    {
        match self.entries.insert(namespace, entry) {
            Ok(_) => Ok(()),
            Err(_) => Err(NoMemory),
        }
    }
}
