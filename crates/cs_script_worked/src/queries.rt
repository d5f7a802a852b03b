use cs_ddl::{CopyTree, Literal, ReadQuery, parse_query};
use cs_types::Memory;
use std::alloc::Global;
use std::test::Fail;

const BY_PLACE: &[u8] = b"SELECT ChangeRecord FROM f(TIMESTAMP 'a', NULL, 'c', -1, NULL)";

const BY_NAME: &[u8] = b"SELECT ChangeRecord FROM f(Timestamp => 'a', b => 2)";

/// The value of an argument as its text.
fn text_of(value: &Literal) -> &[u8] {
    match value {
        Literal::Text(word) | Literal::Timestamp(word) | Literal::Number(word) => word.as_slice(),
        Literal::Null => "null".as_bytes(),
    }
}

/// The argument at a place, as a name and a value.
fn argument(alloc: Global, query: &ReadQuery, place: usize) -> Result<Vec<u8>, Memory> {
    let mut told = Vec::new(alloc);
    if let Some(argument) = query.arguments.as_slice().get(place) {
        told.extend_from_slice(argument.name.as_slice())?;
        told.push(b'=')?;
        told.extend_from_slice(text_of(&argument.value))?;
    }
    Ok(told)
}

fn argument_of(alloc: Global, text: &[u8], place: usize) -> Result<Vec<u8>, Memory> {
    let Ok(query) = parse_query(alloc, text) else {
        return Ok(Vec::new(alloc));
    };
    argument(alloc, &query.copy()?, place)
}

#[test]
fn arguments_by_place_have_their_names(rt: HostRuntime) -> Result<(), Fail> {
    for (place, want) in [
        (0, "start_timestamp=a"),
        (1, "end_timestamp=null"),
        (2, "partition_token=c"),
        (3, "heartbeat_milliseconds=-1"),
        (4, "read_options=null"),
        (5, ""),
    ] {
        let found = argument_of(rt.alloc(), BY_PLACE, place)?;
        assert!(rt; found.as_slice() == want.as_bytes(), "{want}");
    }
    Ok(())
}

#[test]
fn arguments_by_name_keep_theirs(rt: HostRuntime) -> Result<(), Fail> {
    for (place, want) in [(0, "Timestamp=a"), (1, "b=2")] {
        let found = argument_of(rt.alloc(), BY_NAME, place)?;
        assert!(rt; found.as_slice() == want.as_bytes(), "{want}");
    }
    Ok(())
}
