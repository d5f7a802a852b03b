ghost use Rattle.std.specs.Prelude.{◌≡◌, [], Some, None, MatchResult, IfOk};
ghost use Rattle.cs_schema.specs.Faults.{not_memory};
ghost use Rattle.cs_types.specs.Firsts.{first_of};
ghost use Rattle.cs_schema.specs.Streaming.{list_made, items_made, tree_made, watch_made, stream_made, no_table, unknown_listed, is_key, key_listed, listed as listed_of, twice_listed, crowded_table, crowded_part, crowded_item, items_of, tables_of, item_twice, crowded_watch, is_stream, items_fault, options_fault, stream_fault};

use crate::making::{check_crowds, check_once, check_there, names_of_columns};
use crate::names::{again, text, texts};
use crate::options::{
    check_all_built, check_options, check_retentions, chosen_capture, chosen_retention,
};
use crate::{SchemaFault, Stream, Table, Tables, Watch, WatchList, Watched};
use cs_ddl::{OptionTree, Run, WatchItem, WatchTree, Word};
use cs_types::{Duplicate, Items, Memory, Names, Stamp, Text};
use std::alloc::Global;

/// The most streams of a catalog.
const MOST_STREAMS: u32 = 10;

/// The most streams of a column: so many may not watch it before one more is made.
const MOST_WATCHERS: usize = 3;

fn list(alloc: Global, columns: &Option<Run<Word>>) -> Result<Option<Names>, Memory>
    ensures { IfOk result (λ l. l ≡ list_made columns.now) }
{
    match columns {
        None => Ok(None),
        Some(columns) => Ok(Some(Names::of(alloc, texts(alloc, columns.as_slice())?)?)),
    }
}

fn items(alloc: Global, trees: &[WatchItem]) -> Result<Items<Watched>, Memory>
    ensures { IfOk result (λ l. l ≡ items_made trees.now) }
{
    let mut made = Items::new(alloc);
    for tree in trees {
        made.push(Watched {
            table: text(alloc, &tree.table)?,
            columns: list(alloc, &tree.columns)?,
        })?;
    }
    Ok(made)
}

fn watch(alloc: Global, tree: &Option<WatchTree>) -> Result<Watch, Memory>
    ensures { IfOk result (λ w. w ≡ watch_made tree.now) }
{
    match tree {
        None => Ok(Watch::Nothing),
        Some(WatchTree::All) => Ok(Watch::All),
        Some(WatchTree::Tables(trees)) => Ok(Watch::Tables(WatchList::of(
            alloc,
            items(alloc, trees.as_slice())?,
        )?)),
    }
}

/// The stream that CREATE CHANGE STREAM makes.
pub(crate) fn stream(
    alloc: Global,
    at: Stamp,
    name: &Word,
    tree: &Option<WatchTree>,
    options: &[OptionTree],
) -> Result<Stream, Memory>
    ensures { IfOk result (λ s. s ≡ stream_made at name.now tree.now options.now) }
{
    Ok(Stream {
        name: text(alloc, name)?,
        watch: watch(alloc, tree)?,
        capture: chosen_capture(options),
        retention_us: chosen_retention(options),
        created: at,
    })
}

fn check_table_there(tables: &Tables, item: &Watched) -> Result<(), SchemaFault>
    ensures { MatchResult result (λ _. no_table tables.now item.now ≡ None) (λ e. not_memory e → no_table tables.now item.now ≡ Some e) }
{
    match tables.find(&item.table) {
        Some(_) => Ok(()),
        None => Err(SchemaFault::NoTable(item.table.copy()?)),
    }
}

fn check_tables_there(tables: &Tables, items: &[Watched]) -> Result<(), SchemaFault>
    ensures { MatchResult result (λ _. first_of (no_table tables.now) items.now ≡ None) (λ e. not_memory e → first_of (no_table tables.now) items.now ≡ Some e) }
{
    for item in items {
        check_table_there(tables, item)?;
    }
    Ok(())
}

fn listed(columns: &Option<Names>) -> &[Text]
    ensures { result.now ≡ listed_of columns.now }
{
    match columns {
        None => &[],
        Some(columns) => columns.as_slice(),
    }
}

fn check_known(alloc: Global, tables: &Tables, item: &Watched) -> Result<(), SchemaFault>
    ensures { MatchResult result (λ _. unknown_listed tables.now item.now ≡ None) (λ e. not_memory e → unknown_listed tables.now item.now ≡ Some e) }
{
    match tables.find(&item.table) {
        None => Ok(()),
        Some(table) => {
            let columns = Names::of(alloc, names_of_columns(alloc, table.columns.as_slice())?)?;
            check_there(&columns, listed(&item.columns))
        }
    }
}

fn check_all_known(alloc: Global, tables: &Tables, items: &[Watched]) -> Result<(), SchemaFault>
    ensures { MatchResult result (λ _. first_of (unknown_listed tables.now) items.now ≡ None) (λ e. not_memory e → first_of (unknown_listed tables.now) items.now ≡ Some e) }
{
    for item in items {
        check_known(alloc, tables, item)?;
    }
    Ok(())
}

fn check_no_key(key: &Names, names: &[Text]) -> Result<(), SchemaFault>
    ensures { MatchResult result (λ _. first_of (is_key key.now) names.now ≡ None) (λ e. not_memory e → first_of (is_key key.now) names.now ≡ Some e) }
{
    for name in names {
        if key.has(name) {
            return Err(SchemaFault::KeyListed(name.copy()?));
        }
    }
    Ok(())
}

fn check_unkeyed(alloc: Global, tables: &Tables, item: &Watched) -> Result<(), SchemaFault>
    ensures { MatchResult result (λ _. key_listed tables.now item.now ≡ None) (λ e. not_memory e → key_listed tables.now item.now ≡ Some e) }
{
    match tables.find(&item.table) {
        None => Ok(()),
        Some(table) => {
            let key = Names::of(alloc, table.key.copy()?)?;
            check_no_key(&key, listed(&item.columns))
        }
    }
}

fn check_all_unkeyed(alloc: Global, tables: &Tables, items: &[Watched]) -> Result<(), SchemaFault>
    ensures { MatchResult result (λ _. first_of (key_listed tables.now) items.now ≡ None) (λ e. not_memory e → first_of (key_listed tables.now) items.now ≡ Some e) }
{
    for item in items {
        check_unkeyed(alloc, tables, item)?;
    }
    Ok(())
}

fn check_lists(alloc: Global, items: &[Watched]) -> Result<(), SchemaFault>
    ensures { MatchResult result (λ _. first_of twice_listed items.now ≡ None) (λ e. not_memory e → first_of twice_listed items.now ≡ Some e) }
{
    for item in items {
        check_once(alloc, listed(&item.columns))?;
    }
    Ok(())
}

/// The refusals of the items of a watch, one by one.
fn check_items(alloc: Global, tables: &Tables, items: &[Watched]) -> Result<(), SchemaFault>
    ensures { MatchResult result (λ _. items_fault tables.now items.now ≡ None) (λ e. not_memory e → items_fault tables.now items.now ≡ Some e) }
{
    check_tables_there(tables, items)?;
    check_all_known(alloc, tables, items)?;
    check_all_unkeyed(alloc, tables, items)?;
    check_lists(alloc, items)?;
    Ok(())
}

fn check_crowded_table(alloc: Global, streams: &[Stream], table: &Table) -> Result<(), SchemaFault>
    ensures { MatchResult result (λ _. crowded_table streams.now table.now ≡ None) (λ e. not_memory e → crowded_table streams.now table.now ≡ Some e) }
{
    let key = Names::of(alloc, table.key.copy()?)?;
    let columns = names_of_columns(alloc, table.columns.as_slice())?;
    check_crowds(
        MOST_WATCHERS,
        streams,
        &table.name,
        &key,
        columns.as_slice(),
    )
}

fn check_crowded_tables(
    alloc: Global,
    streams: &[Stream],
    tables: &[Table],
) -> Result<(), SchemaFault>
    ensures { MatchResult result (λ _. first_of (crowded_table streams.now) tables.now ≡ None) (λ e. not_memory e → first_of (crowded_table streams.now) tables.now ≡ Some e) }
{
    for table in tables {
        check_crowded_table(alloc, streams, table)?;
    }
    Ok(())
}

fn check_crowded_part(
    alloc: Global,
    streams: &[Stream],
    table: &Table,
    columns: &Option<Names>,
) -> Result<(), SchemaFault>
    ensures { MatchResult result (λ _. crowded_part streams.now table.now columns.now ≡ None) (λ e. not_memory e → crowded_part streams.now table.now columns.now ≡ Some e) }
{
    match columns {
        None => check_crowded_table(alloc, streams, table),
        Some(columns) => {
            let key = Names::of(alloc, table.key.copy()?)?;
            check_crowds(
                MOST_WATCHERS,
                streams,
                &table.name,
                &key,
                columns.as_slice(),
            )
        }
    }
}

fn check_crowded_item(
    alloc: Global,
    tables: &Tables,
    streams: &[Stream],
    item: &Watched,
) -> Result<(), SchemaFault>
    ensures { MatchResult result (λ _. crowded_item tables.now streams.now item.now ≡ None) (λ e. not_memory e → crowded_item tables.now streams.now item.now ≡ Some e) }
{
    match tables.find(&item.table) {
        None => Ok(()),
        Some(table) => check_crowded_part(alloc, streams, table, &item.columns),
    }
}

fn check_crowded_items(
    alloc: Global,
    tables: &Tables,
    streams: &[Stream],
    items: &[Watched],
) -> Result<(), SchemaFault>
    ensures { MatchResult result (λ _. first_of (crowded_item tables.now streams.now) items.now ≡ None) (λ e. not_memory e → first_of (crowded_item tables.now streams.now) items.now ≡ Some e) }
{
    for item in items {
        check_crowded_item(alloc, tables, streams, item)?;
    }
    Ok(())
}

fn check_crowded_watch(
    alloc: Global,
    tables: &Tables,
    streams: &[Stream],
    watch: &Watch,
) -> Result<(), SchemaFault>
    ensures { MatchResult result (λ _. crowded_watch tables.now streams.now watch.now ≡ None) (λ e. not_memory e → crowded_watch tables.now streams.now watch.now ≡ Some e) }
{
    match watch {
        Watch::Nothing => Ok(()),
        Watch::All => check_crowded_tables(alloc, streams, tables.as_slice()),
        Watch::Tables(items) => check_crowded_items(alloc, tables, streams, items.as_slice()),
    }
}

fn watched_tables(alloc: Global, items: &[Watched]) -> Result<Items<Text>, Memory>
    ensures { IfOk result (λ n. n ≡ tables_of items.now) }
{
    let mut names = Items::new(alloc);
    for item in items {
        names.push(item.table.copy()?)?;
    }
    Ok(names)
}

fn check_items_once(alloc: Global, items: &[Watched]) -> Result<(), SchemaFault>
    ensures { MatchResult result (λ _. item_twice items.now ≡ None) (λ e. not_memory e → item_twice items.now ≡ Some e) }
{
    let names = watched_tables(alloc, items)?;
    match again(alloc, names.as_slice())? {
        Some(name) => Err(SchemaFault::ItemTwice(name)),
        None => Ok(()),
    }
}

fn items_in(watch: &Watch) -> &[Watched]
    ensures { result.now ≡ items_of watch.now }
{
    match watch {
        Watch::Nothing => &[],
        Watch::All => &[],
        Watch::Tables(items) => items.as_slice(),
    }
}

fn stream_named(streams: &[Stream], name: &Text) -> bool
    ensures { result ≡ is_stream name.now streams.now }
{
    for stream in streams {
        if stream.name.is(name) {
            return true;
        }
    }
    false
}

fn check_all_options(
    alloc: Global,
    items: &[Watched],
    options: &[OptionTree],
) -> Result<(), SchemaFault>
    ensures { MatchResult result (λ _. options_fault items.now options.now ≡ None) (λ e. not_memory e → options_fault items.now options.now ≡ Some e) }
{
    check_options(alloc, options)?;
    check_retentions(options)?;
    check_all_built(options)?;
    check_items_once(alloc, items)?;
    Ok(())
}

/// The refusals of CREATE CHANGE STREAM in their order.
pub(crate) fn check_stream(
    alloc: Global,
    tables: &Tables,
    streams: &[Stream],
    name: &Text,
    watch: &Watch,
    options: &[OptionTree],
) -> Result<(), SchemaFault>
    ensures { MatchResult result (λ _. stream_fault tables.now streams.now name.now watch.now options.now ≡ None) (λ e. not_memory e → stream_fault tables.now streams.now name.now watch.now options.now ≡ Some e) }
{
    let items = items_in(watch);
    check_items(alloc, tables, items)?;
    if stream_named(streams, name) {
        return Err(SchemaFault::StreamThere);
    }
    if (MOST_STREAMS as usize) <= streams.len() {
        return Err(SchemaFault::TooManyStreams(MOST_STREAMS));
    }
    check_crowded_watch(alloc, tables, streams, watch)?;
    check_all_options(alloc, items, options)?;
    Ok(())
}
