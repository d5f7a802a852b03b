use cs_ddl::parse_ddl;
use cs_schema::{Catalog, Stream};
use cs_types::{CaptureType, Items, Memory, Stamp, Text};
use std::alloc::Global;
use std::process::Abort;
use std::test::Fail;

const TABLE: &str = "CREATE TABLE T (K INT64 NOT NULL, A INT64, B STRING(MAX)) PRIMARY KEY (K)";

const STREAM: &str =
    "CREATE CHANGE STREAM S FOR T(A) OPTIONS (value_capture_type = 'NEW_ROW', retention_period = '036h')";

fn apply(rt: &impl Abort, alloc: Global, catalog: &mut Catalog, text: &str) {
    let Ok(statement) = parse_ddl(alloc, text.as_bytes()) else {
        panic!(rt; "no statement");
    };
    let Some(at) = Stamp::of(7) else {
        panic!(rt; "no stamp");
    };
    let Ok(()) = catalog.apply(at, &statement) else {
        panic!(rt; "refused");
    };
}

/// The table, and the stream that watches its column A.
fn catalog_of(rt: &impl Abort, alloc: Global) -> Catalog {
    let mut catalog = Catalog::new(alloc);
    apply(rt, alloc, &mut catalog, TABLE);
    apply(rt, alloc, &mut catalog, STREAM);
    catalog
}

fn is_as_stated(stream: &Stream) -> bool {
    stream.capture == CaptureType::NewRow
        && stream.retention_us == 129_600_000_000
        && stream.created.us() == 7
}

#[test]
fn a_stream_is_as_its_statement_says(rt: HostRuntime) -> Result<(), Fail> {
    let catalog = catalog_of(&rt, rt.alloc());
    let [stream] = catalog.streams() else {
        panic!(rt; "not one stream");
    };
    assert!(rt; is_as_stated(stream));
    Ok(())
}

fn names(alloc: Global, columns: &[&str]) -> Result<Items<Text>, Memory> {
    let mut names = Items::new(alloc);
    for column in columns {
        names.push(Text::of(alloc, *column)?)?;
    }
    Ok(names)
}

/// Whether the one stream watches one of these columns of T.
fn watches(alloc: Global, catalog: &Catalog, columns: &[&str]) -> Result<bool, Memory> {
    let table = Text::of(alloc, "T")?;
    let columns = names(alloc, columns)?;
    match catalog.streams() {
        [stream] => Ok(stream.watches(catalog, &table, columns.as_slice())),
        _ => Ok(false),
    }
}

#[test]
fn a_watched_column_is_watched(rt: HostRuntime) -> Result<(), Fail> {
    let catalog = catalog_of(&rt, rt.alloc());
    assert!(rt; watches(rt.alloc(), &catalog, &["K", "B", "A"])?);
    Ok(())
}

#[test]
fn a_key_and_another_column_are_not(rt: HostRuntime) -> Result<(), Fail> {
    let catalog = catalog_of(&rt, rt.alloc());
    assert!(rt; !watches(rt.alloc(), &catalog, &["K", "B"])?);
    Ok(())
}

#[test]
fn all_columns_are(rt: HostRuntime) -> Result<(), Fail> {
    let catalog = catalog_of(&rt, rt.alloc());
    assert!(rt; watches(rt.alloc(), &catalog, &[])?);
    Ok(())
}
