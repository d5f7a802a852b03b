ghost use Rattle.serde_json.specs.View.{view};
ghost use Rattle.cs_json_reading.specs.Reading.{Gives};
ghost use Rattle.cs_json_reading.specs.Changes.{place_reading, rows_reading, facts_reading, change_reading};

use crate::cells::mods_of;
use crate::columns::ColumnTypes;
use crate::fault::bad;
use crate::form::{optional, required};
use crate::forms::{Name, Sequence, Transaction};
use cs_records::{ColumnInfo, DataRecord, LineFault, Mod, Record};
use cs_types::{CaptureType, Items, Kind, Stamp, Text};
use serde_json::Value;
use std::alloc::Global;

/// Where changes stand in a stream.
#[derive(Drop)]
pub(crate) struct Place {
    pub(crate) stamp: Stamp,
    pub(crate) sequence: u32,
    pub(crate) tx: Text,
    pub(crate) is_last: bool,
    pub(crate) table: Text,
}

/// What was written.
#[derive(Drop)]
pub(crate) struct Rows {
    pub(crate) columns: Items<ColumnInfo>,
    pub(crate) mods: Items<Mod>,
}

/// What is told of changes and of their transaction.
#[derive(Drop)]
pub(crate) struct Facts {
    pub(crate) kind: Kind,
    pub(crate) capture: CaptureType,
    pub(crate) records_in_tx: u64,
    pub(crate) parts_in_tx: u64,
    pub(crate) tag: Text,
    pub(crate) system: bool,
}

#[tactic(auto, unfolding(crate::specs::Changes::change_reading))]
pub(crate) fn change_of(alloc: Global, tree: &Value) -> Result<Record, LineFault>
    ensures { Gives result (change_reading (view tree.now)) }
{
    if !tree.is_object() {
        return Err(bad(alloc, "data_change_record"));
    }
    let place = place_of(alloc, tree)?;
    let rows = rows_of(alloc, tree)?;
    let facts = facts_of(alloc, tree)?;
    let Place {
        stamp,
        sequence,
        tx,
        is_last,
        table,
    } = place;
    let Rows { columns, mods } = rows;
    let Facts {
        kind,
        capture,
        records_in_tx,
        parts_in_tx,
        tag,
        system,
    } = facts;
    Ok(Record::Change(DataRecord {
        stamp,
        sequence,
        tx,
        is_last,
        table,
        columns,
        mods,
        kind,
        capture,
        records_in_tx,
        parts_in_tx,
        tag,
        system,
    }))
}

#[tactic(auto, unfolding(crate::specs::Changes::place_reading))]
fn place_of(alloc: Global, tree: &Value) -> Result<Place, LineFault>
    ensures { Gives result (place_reading (view tree.now)) }
{
    let stamp = required::<Stamp>(alloc, tree, "commit_timestamp")?;
    let sequence = required::<Sequence>(alloc, tree, "record_sequence")?;
    let tx = required::<Transaction>(alloc, tree, "server_transaction_id")?;
    let is_last = required::<bool>(alloc, tree, "is_last_record_in_transaction_in_partition")?;
    let table = required::<Name>(alloc, tree, "table_name")?;
    Ok(Place {
        stamp,
        sequence,
        tx,
        is_last,
        table,
    })
}

#[tactic(auto, unfolding(crate::specs::Changes::rows_reading))]
fn rows_of(alloc: Global, tree: &Value) -> Result<Rows, LineFault>
    ensures { Gives result (rows_reading (view tree.now)) }
{
    let types = ColumnTypes::of_tree(alloc, tree)?;
    let mods = mods_of(alloc, &types, tree)?;
    Ok(Rows {
        columns: types.into_items(),
        mods,
    })
}

#[tactic(auto, unfolding(crate::specs::Changes::facts_reading))]
fn facts_of(alloc: Global, tree: &Value) -> Result<Facts, LineFault>
    ensures { Gives result (facts_reading (view tree.now)) }
{
    let kind = required::<Kind>(alloc, tree, "mod_type")?;
    let capture = required::<CaptureType>(alloc, tree, "value_capture_type")?;
    let records_in_tx = required::<u64>(alloc, tree, "number_of_records_in_transaction")?;
    let parts_in_tx = required::<u64>(alloc, tree, "number_of_partitions_in_transaction")?;
    let tag = optional::<Text>(alloc, tree, "transaction_tag", Text::of(alloc, "")?)?;
    let system = optional::<bool>(alloc, tree, "is_system_transaction", false)?;
    Ok(Facts {
        kind,
        capture,
        records_in_tx,
        parts_in_tx,
        tag,
        system,
    })
}
