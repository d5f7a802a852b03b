use cs_ddl::parse_query;
use cs_link::ReadRefusal;
use cs_schema::{Stream, Watch};
use cs_steps::{ReadFault, read_args};
use cs_types::{CaptureType, Items, Memory, Stamp, Text};
use std::alloc::Global;
use std::test::Fail;

/// A stream S of no table, created at a moment.
fn stream(alloc: Global, created: Stamp) -> Result<Items<Stream>, Memory> {
    let mut streams = Items::new(alloc);
    streams.push(Stream {
        name: Text::of(alloc, "S")?,
        watch: Watch::Nothing,
        capture: CaptureType::NewRow,
        retention_us: 86_400_000_000,
        created,
    })?;
    Ok(streams)
}

/// What a query of the stream asks for: 1 and its heartbeat, or the number of the refusal.
fn told(alloc: Global, query: &[u8], created: Stamp) -> Result<u32, Memory> {
    let streams = stream(alloc, created)?;
    let Ok(query) = parse_query(alloc, query) else {
        return Ok(13);
    };
    match read_args(alloc, streams.as_slice(), &query) {
        Ok((_place, args)) => Ok(args.heartbeat_ms),
        Err(ReadFault::Refused(refusal)) => Ok(number(&refusal)),
        Err(ReadFault::Memory) => Err(Memory),
    }
}

/// The number of a refusal that the arguments alone meet.
fn number(refusal: &ReadRefusal) -> u32 {
    match refusal {
        ReadRefusal::UnknownFunction => 1,
        ReadRefusal::ArgumentType(_name) => 2,
        ReadRefusal::ArgumentMissing(_name) => 3,
        ReadRefusal::ReadOptions => 4,
        _ => 0,
    }
}

#[test]
fn a_query_by_places_has_its_heartbeat(rt: HostRuntime) -> Result<(), Fail> {
    let Some(created) = Stamp::of(1) else {
        panic!(rt; "no stamp");
    };
    let query = b"SELECT ChangeRecord FROM READ_S('2024-05-01T00:00:01Z', NULL, NULL, 10000)";
    assert_eq!(rt; told(rt.alloc(), query, created)?, 10000);
    Ok(())
}

#[test]
fn the_function_of_another_stream_is_unknown(rt: HostRuntime) -> Result<(), Fail> {
    let Some(created) = Stamp::of(1) else {
        panic!(rt; "no stamp");
    };
    let query = b"SELECT ChangeRecord FROM READ_T('2024-05-01T00:00:01Z', NULL, NULL, 10000)";
    assert_eq!(rt; told(rt.alloc(), query, created)?, 1);
    Ok(())
}

#[test]
fn a_start_that_is_a_number_is_of_a_wrong_type(rt: HostRuntime) -> Result<(), Fail> {
    let Some(created) = Stamp::of(1) else {
        panic!(rt; "no stamp");
    };
    let query = b"SELECT ChangeRecord FROM READ_S(start_timestamp => 5)";
    assert_eq!(rt; told(rt.alloc(), query, created)?, 2);
    Ok(())
}

#[test]
fn a_heartbeat_has_to_be_given(rt: HostRuntime) -> Result<(), Fail> {
    let Some(created) = Stamp::of(1) else {
        panic!(rt; "no stamp");
    };
    let query =
        b"SELECT ChangeRecord FROM READ_S(read_options => 'x', start_timestamp => '2024-05-01T00:00:01Z')";
    assert_eq!(rt; told(rt.alloc(), query, created)?, 3);
    Ok(())
}

#[test]
fn there_are_no_options(rt: HostRuntime) -> Result<(), Fail> {
    let Some(created) = Stamp::of(1) else {
        panic!(rt; "no stamp");
    };
    let query = b"SELECT ChangeRecord FROM READ_S('2024-05-01T00:00:01Z', NULL, NULL, 10000, 'x')";
    assert_eq!(rt; told(rt.alloc(), query, created)?, 4);
    Ok(())
}
