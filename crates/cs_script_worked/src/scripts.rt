use cs_device::MemSource;
use cs_script::{ScriptFault, ServerState, load};
use cs_types::{Items, Memory};
use std::alloc::Global;
use std::test::Fail;

/// A table and its stream, a comment, and the insert of the row 1 by t1 at the second 1.
const BEGINNING: &str =
    "{\"at\":\"2024-05-01T00:00:00Z\",\"ddl\":\"CREATE TABLE T (K INT64 NOT NULL, A INT64, B STRING(MAX)) PRIMARY KEY (K)\"}\n{\"at\":\"2024-05-01T00:00:00Z\",\"ddl\":\"CREATE CHANGE STREAM S FOR T\"}\n# one row\n{\"at\":\"2024-05-01T00:00:01Z\",\"commit\":{\"id\":\"t1\",\"writes\":[{\"insert\":\"T\",\"key\":{\"K\":\"1\"},\"set\":{\"A\":\"5\",\"B\":\"x\"}}]}}\n";

fn source(alloc: Global, script: &str, fails: &[u64]) -> Result<MemSource, Memory> {
    let bytes = Items::from_slice(alloc, script.as_bytes())?;
    MemSource::new(alloc, bytes, Items::from_slice(alloc, fails)?)
}

fn loaded(alloc: Global, script: &str, fails: &[u64]) -> Result<ServerState, ScriptFault> {
    let mut source = source(alloc, script, fails)?;
    load(alloc, &mut source)
}

/// That beginning and one line more.
fn script_with(alloc: Global, line: &str) -> Result<String, Memory> {
    let mut script = String::from_str(alloc, BEGINNING)?;
    script.push_str(line)?;
    Ok(script)
}

/// The fault of a script; nothing where there is none.
fn fault(alloc: Global, script: &str, fails: &[u64]) -> Result<String, Memory> {
    match loaded(alloc, script, fails) {
        Ok(_) => Ok(String::new(alloc)),
        Err(fault) => Ok(format!(in alloc; "{fault:?}")?),
    }
}

fn fault_of_line(alloc: Global, line: &str) -> Result<String, Memory> {
    let script = script_with(alloc, line)?;
    fault(alloc, script.as_str(), &[])
}

#[test]
fn each_cause_is_told(rt: HostRuntime) -> Result<(), Fail> {
    for (line, want) in [
        ("[]", "Line(5, NotJson)"),
        ("{\"at\":\"2024-05-01T00:00:02Z\"}", "Line(5, Member("),
        (
            "{\"at\":\"2024-05-01T00:00:02Z\",\"commit\":{\"id\":\"t2\",\"system\":1}}",
            "Line(5, NotBuilt)",
        ),
        (
            "{\"at\":\"2024-05-01 00:00:02Z\",\"ddl\":\"x\"}",
            "Line(5, Stamp(Shape(10)))",
        ),
        (
            "{\"at\":\"2024-05-01T00:00:01Z\",\"ddl\":\"x\"}",
            "Line(5, Order)",
        ),
        (
            "{\"at\":\"2024-05-01T00:00:02Z\",\"ddl\":\"CREATE STREAM S\"}",
            "Line(5, Syntax(At(7)))",
        ),
        (
            "{\"at\":\"2024-05-01T00:00:02Z\",\"ddl\":\"CREATE CHANGE STREAM S\"}",
            "Line(5, Schema(StreamThere))",
        ),
        (
            "{\"at\":\"2024-05-01T00:00:02Z\",\"commit\":{\"id\":\"t2\",\"writes\":[{\"delete\":\"U\",\"key\":{\"K\":\"1\"}}]}}",
            "Line(5, NoTable(",
        ),
        (
            "{\"at\":\"2024-05-01T00:00:02Z\",\"commit\":{\"id\":\"t2\",\"writes\":[{\"delete\":\"T\",\"key\":{}}]}}",
            "Line(5, NoColumn(",
        ),
        (
            "{\"at\":\"2024-05-01T00:00:02Z\",\"commit\":{\"id\":\"t2\",\"writes\":[{\"insert\":\"T\",\"key\":{\"K\":\"2\"},\"set\":{\"B\":7}}]}}",
            "Line(5, Value(WrongKind))",
        ),
        (
            "{\"at\":\"2024-05-01T00:00:02Z\",\"commit\":{\"id\":\"t2\",\"writes\":[{\"insert\":\"T\",\"key\":{\"K\":\"1\"},\"set\":{\"A\":\"5\",\"B\":\"x\"}}]}}",
            "Line(5, Txn(RowThere(",
        ),
        (
            "{\"at\":\"2024-05-01T00:00:02Z\",\"commit\":{\"id\":\"t2\",\"writes\":[{\"update\":\"T\",\"key\":{\"K\":\"9\"},\"set\":{\"A\":\"6\"}}]}}",
            "Line(5, Txn(NoRow(",
        ),
        (
            "{\"at\":\"2024-05-01T00:00:02Z\",\"commit\":{\"id\":\"t1\",\"writes\":[{\"insert\":\"T\",\"key\":{\"K\":\"2\"},\"set\":{\"A\":\"5\",\"B\":\"x\"}}]}}",
            "Line(5, Txn(IdUsed))",
        ),
        (
            "{\"at\":\"2024-05-01T00:00:01Z\",\"commit\":{\"id\":\"t2\",\"writes\":[{\"update\":\"T\",\"key\":{\"K\":\"1\"},\"set\":{\"A\":\"6\"}}]}}",
            "Line(5, Txn(SharedStampRow(",
        ),
        (
            "{\"at\":\"2024-05-01T00:00:06Z\",\"reshape\":{\"borders\":[],\"parts\":[\"S-00009\"],\"stream\":\"S\"}}",
            "Line(5, Layout(NoPart(",
        ),
        (
            "{\"at\":\"2024-05-01T00:00:06Z\",\"reshape\":{\"borders\":[],\"parts\":[\"S-00000\"],\"stream\":\"S\"}}",
            "",
        ),
        (
            "{\"at\":\"2024-05-01T00:00:06Z\",\"reshape\":{\"borders\":[{\"key\":{\"K\":\"100\"},\"table\":\"T\"}],\"parts\":[\"S-00000\"],\"stream\":\"S\"}}",
            "",
        ),
    ] {
        let found = fault_of_line(rt.alloc(), line)?;
        assert!(rt; found.as_str().starts_with(want), "{found}");
    }
    Ok(())
}

#[test]
fn moments_do_not_fall(rt: HostRuntime) -> Result<(), Fail> {
    let script =
        "{\"at\":\"2024-05-01T00:00:02Z\",\"ddl\":\"CREATE TABLE T (K INT64 NOT NULL, A INT64, B STRING(MAX)) PRIMARY KEY (K)\"}\n{\"at\":\"2024-05-01T00:00:00Z\",\"ddl\":\"CREATE CHANGE STREAM S FOR T\"}";
    let found = fault(rt.alloc(), script, &[])?;
    assert!(rt; found.as_str() == "Line(2, Order)");
    Ok(())
}

#[test]
fn a_read_that_fails_is_told(rt: HostRuntime) -> Result<(), Fail> {
    let found = fault(rt.alloc(), BEGINNING, &[1])?;
    assert!(rt; found.as_str() == "SourceFault");
    Ok(())
}

/// How many streams, modifications and parts of the first stream a state has.
fn counts(state: &ServerState) -> (usize, usize, usize) {
    let parts = match state.layouts() {
        [first, ..] => first.parts().len(),
        [] => 0,
    };
    let streams = state.catalog().streams().len();
    (streams, state.history().modifications().len(), parts)
}

/// The counts of that beginning behind a split and an insert.
fn counts_behind_a_split(alloc: Global) -> Result<(usize, usize, usize), ScriptFault> {
    let script = script_with(
        alloc,
        "{\"at\":\"2024-05-01T00:00:05Z\",\"reshape\":{\"borders\":[{\"key\":{\"K\":\"100\"},\"table\":\"T\"}],\"parts\":[\"S-00000\"],\"stream\":\"S\"}}\r\n\n{\"at\":\"2024-05-01T00:00:05Z\",\"commit\":{\"id\":\"t2\",\"writes\":[{\"insert\":\"T\",\"key\":{\"K\":\"100\"},\"set\":{\"A\":\"5\",\"B\":\"x\"}}]}}",
    )?;
    let state = loaded(alloc, script.as_str(), &[])?;
    Ok(counts(&state))
}

#[test]
fn a_script_makes_what_its_lines_say(rt: HostRuntime) -> Result<(), Fail> {
    let Ok((streams, modifications, parts)) = counts_behind_a_split(rt.alloc()) else {
        panic!(rt; "refused");
    };
    assert!(rt; streams == 1 && modifications == 2 && parts == 3);
    Ok(())
}
