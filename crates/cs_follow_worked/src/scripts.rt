// Servers of scripted databases.
use cs_script::{LineCause, ServerState};
use cs_types::Memory;
use std::alloc::Global;

const TABLE: &str =
    "{\"at\":\"2024-05-01T00:00:00Z\",\"ddl\":\"CREATE TABLE T (K INT64 NOT NULL, A INT64, B STRING(MAX)) PRIMARY KEY (K)\"}";

const STREAM: &str = "{\"at\":\"2024-05-01T00:00:00Z\",\"ddl\":\"CREATE CHANGE STREAM S FOR T\"}";

/// The line of the insert of a row, by its key, at a second before the tenth.
fn insert(alloc: Global, key: u32, second: u32, tx: &str) -> Result<String, Memory> {
    Ok(format!(in alloc;
        "{{\"at\":\"2024-05-01T00:00:0{second}Z\",\"commit\":{{\"id\":\"{tx}\",\"writes\":[{{\"insert\":\"T\",\"key\":{{\"K\":\"{key}\"}},\"set\":{{\"A\":\"5\",\"B\":\"x\"}}}}]}}}}"
    )?)
}

/// The line that splits the first part at the row 100, at a second before the tenth.
fn split(alloc: Global, second: u32) -> Result<String, Memory> {
    Ok(format!(in alloc;
        "{{\"at\":\"2024-05-01T00:00:0{second}Z\",\"reshape\":{{\"borders\":[{{\"key\":{{\"K\":\"100\"}},\"table\":\"T\"}}],\"parts\":[\"S-00000\"],\"stream\":\"S\"}}}}"
    )?)
}

const MERGE: &str =
    "{\"at\":\"2024-05-01T00:00:06Z\",\"reshape\":{\"borders\":[],\"parts\":[\"S-00001\",\"S-00002\"],\"stream\":\"S\"}}";

/// Takes a line of a script in.
fn line(state: &mut ServerState, line: &str) -> Result<(), LineCause> {
    state.line(line.as_bytes())
}

/// The server of a table and its stream.
fn server(alloc: Global) -> Result<ServerState, LineCause> {
    let mut state = ServerState::new(alloc);
    line(&mut state, TABLE)?;
    line(&mut state, STREAM)?;
    Ok(state)
}

/// The server of two inserts, at the first and the second second.
pub fn two_inserts(alloc: Global) -> Result<ServerState, LineCause> {
    let mut state = server(alloc)?;
    line(&mut state, insert(alloc, 1, 1, "a")?.as_str())?;
    line(&mut state, insert(alloc, 2, 2, "b")?.as_str())?;
    Ok(state)
}

/// The server whose part is split at the fifth second, at which a row is inserted.
pub fn split_server(alloc: Global, key: u32) -> Result<ServerState, LineCause> {
    let mut state = server(alloc)?;
    line(&mut state, split(alloc, 5)?.as_str())?;
    line(&mut state, insert(alloc, key, 5, "t1")?.as_str())?;
    Ok(state)
}

/// The server whose part is split at the second second and whole again from the sixth on, with an
/// insert in each of the two and in the one behind them.
pub fn merged_server(alloc: Global) -> Result<ServerState, LineCause> {
    let mut state = server(alloc)?;
    line(&mut state, split(alloc, 2)?.as_str())?;
    line(&mut state, insert(alloc, 1, 3, "a")?.as_str())?;
    line(&mut state, insert(alloc, 200, 4, "b")?.as_str())?;
    line(&mut state, MERGE)?;
    line(&mut state, insert(alloc, 2, 7, "c")?.as_str())?;
    Ok(state)
}
