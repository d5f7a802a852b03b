ghost use Rattle.std.specs.Prelude.{◌≡◌, [], ◌++◌, All, OnOk, OnErr, MatchResult, None, Some};
ghost use Rattle.cs_txn.specs.History.{modifications_of, IsHistory};
ghost use Rattle.cs_txn.specs.Faults.{not_memory};
ghost use Rattle.cs_txn.specs.Fits.{FitsCatalog, IsHistoryOf};
ghost use Rattle.cs_txn.specs.Sizes.{first_fault};

use crate::refusals::check;
use crate::row_key::RowKey;
use crate::rows::{keys_of, lasts, put_all};
use crate::sizes::{weights, with_added};
use crate::writes::modifications;
use crate::{Modification, Txn, TxnFault};
use cs_schema::Catalog;
use cs_types::{Duplicate, Text};
use std::alloc::Global;
use std::collections::HashMap;
use std::marker::Model;

/// What committed transactions did to the rows, which contracts see as the list of modifications
/// in the order of the commits. A commit is expected to cost what its own writes cost, however
/// much stands: rows and ids are found by their hash, and memory grows by doubling. The hash has
/// no secret, so that rows or ids that somebody chose to share it make a commit as slow as a walk
/// over them.
#[derive(Drop)]
pub struct History {
    items: Vec<Modification>,
    rows: HashMap<RowKey, usize>,
    ids: HashMap<Text, ()>,
    last: u64,
    size: u64,
}

impl Model for History {
    ghost use Rattle.std.specs.Prelude.{◌≡◌, ◌≤◌, List};
    ghost use Rattle.cs_txn.specs.declared.txn.Modification.{Modification};
    ghost use Rattle.cs_txn.specs.History.{last_stamp, IsHistory};
    ghost use Rattle.cs_txn.specs.Places.{PlacesOf, IdsOf};
    ghost use Rattle.cs_txn.specs.Sizes.{history_size, history_limit};

    ghost Value = { List Modification };

    ghost view = { λ h. h.items.items };

    ghost invariant = { λ h. PlacesOf h.items.items h.rows × IdsOf h.items.items h.ids × (h.last ≡ last_stamp h.items.items) × IsHistory h.items.items × (h.size ≡ history_size h.items.items) × (h.size ≤ history_limit) };
}

impl History {
    /// The history of no transaction. It takes no memory.
    pub fn new(alloc: Global) -> History
        ensures { result ≡ [] }
    {
        History {
            items: Vec::new(alloc),
            rows: HashMap::new(alloc),
            ids: HashMap::new(alloc),
            last: 0,
            size: 0,
        }
    }

    /// The modifications in the order of the commits, and within one in that of its writes.
    pub fn modifications(&self) -> &[Modification]
        ensures value { result.now ≡ self.now }
        ensures rules { IsHistory self.now }
    {
        self.items.as_slice()
    }

    /// Puts a transaction behind the others, or says why it may not stand there; then, and also
    /// after `Memory`, the history is what it was. A transaction without a write leaves no trace.
    pub fn commit(&mut self, catalog: &Catalog, txn: &Txn) -> Result<(), TxnFault>
        ensures refused { MatchResult result (λ _. first_fault catalog.now.tables self.old txn.now ≡ None) (λ e. not_memory e → first_fault catalog.now.tables self.old txn.now ≡ Some e) }
        ensures ok { OnOk result (self.new ≡ self.old ++ modifications_of catalog.now.tables self.old txn.now) }
        ensures err { OnErr result (self.new ≡ self.old) }
        ensures fits { All (FitsCatalog catalog.now.tables) self.old → OnOk result (All (FitsCatalog catalog.now.tables) self.new) }
        ensures of_catalog { IsHistoryOf catalog.now.tables self.old → OnOk result (IsHistoryOf catalog.now.tables self.new) }
    {
        let alloc = *self.items.allocator();
        let tables = catalog.tables();
        let keys = keys_of(alloc, txn.writes.as_slice())?;
        let lasts = lasts(alloc, &self.rows, &keys)?;
        let items = self.items.as_slice();
        check(
            alloc, tables, &self.ids, self.last, items, &keys, &lasts, txn,
        )?;
        let mut added = modifications(alloc, tables, items, txn, &lasts)?;
        let sizes = weights(alloc, added.as_slice())?;
        let size = match with_added(self.size, sizes.as_slice()) {
            Some(size) => size,
            None => return Err(TxnFault::HistoryFull),
        };
        if added.is_empty() {
            return Ok(());
        }
        self.items.reserve(added.len())?;
        self.rows.reserve(keys.len())?;
        self.ids.insert(txn.tx.copy()?, ())?;
        put_all(
            &mut self.rows,
            self.items.as_slice(),
            added.as_slice(),
            keys,
        );
        self.last = txn.stamp.us();
        self.size = size;
        match self.items.append(&mut added) {
            Ok(()) => Ok(()),
            Err(_) => unreachable!(),
        }
    }
}
