use cs_types::{CaptureType, Duplicate, Items, Memory, Stamp, Text, Token, Value, Window};
use std::alloc::Global;
use std::test::Fail;

fn are_bytes_copied(alloc: Global) -> Result<bool, Memory> {
    let bytes = Value::Bytes(Items::from_slice(alloc, &[1, 2])?);
    let copy = bytes.copy()?;
    Ok(copy == bytes)
}

#[test]
fn bytes_are_copied(rt: HostRuntime) -> Result<(), Fail> {
    assert!(rt; are_bytes_copied(rt.alloc())?);
    Ok(())
}

#[test]
fn values_are_in_the_order_of_their_types(rt: HostRuntime) -> Result<(), Fail> {
    assert!(rt; Value::Date(3) < Value::Timestamp(-3));
    Ok(())
}

#[test]
fn the_greatest_date_is_in_range(rt: HostRuntime) -> Result<(), Fail> {
    assert!(rt; Value::Date(Value::DATE_GREATEST).in_range());
    Ok(())
}

#[test]
fn what_no_numeric_reaches_is_out_of_range(rt: HostRuntime) -> Result<(), Fail> {
    assert!(rt; !Value::Numeric(Value::NUMERIC_END).in_range());
    Ok(())
}

fn are_items_copied(alloc: Global) -> Result<bool, Memory> {
    let mut items: Items<u64> = Items::from_vec(Vec::new(alloc));
    items.push(5)?;
    let copy = items.copy()?;
    Ok(copy.into_vec().as_slice() == items.as_slice())
}

#[test]
fn items_are_copied(rt: HostRuntime) -> Result<(), Fail> {
    assert!(rt; are_items_copied(rt.alloc())?);
    Ok(())
}

fn is_token_copied(alloc: Global, bytes: &[u8]) -> Result<bool, Memory> {
    let Some(token) = Token::of(alloc, bytes)? else {
        return Ok(false);
    };
    let copy = token.copy()?;
    Ok(copy == token && copy.bytes() == bytes)
}

#[test]
fn a_token_is_copied(rt: HostRuntime) -> Result<(), Fail> {
    assert!(rt; is_token_copied(rt.alloc(), b"p-0001")?);
    Ok(())
}

#[test]
fn a_blank_is_in_no_token(rt: HostRuntime) -> Result<(), Fail> {
    assert!(rt; !is_token_copied(rt.alloc(), b"a b")?);
    Ok(())
}

fn window(alloc: Global, start: u64, end: u64) -> Result<Option<Window>, Memory> {
    let (Some(start), Some(end)) = (Stamp::of(start), Stamp::of(end)) else {
        return Ok(None);
    };
    let stream = Text::of(alloc, "S")?;
    Ok(Some(Window { stream, start, end }))
}

fn is_window_copied(window: &Window) -> Result<bool, Memory> {
    let copy = window.copy()?;
    Ok(copy.stream == window.stream && copy.start == window.start && copy.end == window.end)
}

#[test]
fn a_window_is_copied(rt: HostRuntime) -> Result<(), Fail> {
    let Some(window) = window(rt.alloc(), 5, 9)? else {
        panic!(rt; "no stamp");
    };
    assert!(rt; is_window_copied(&window)?);
    Ok(())
}

#[test]
fn a_capture_type_is_copied(rt: HostRuntime) -> Result<(), Fail> {
    assert_eq!(rt; CaptureType::NewRow.copy()?, CaptureType::NewRow);
    Ok(())
}
