ghost use Rattle.std.specs.Prelude.{◌≡◌, ◌++◌, IfOk, string_bytes};
ghost use Rattle.cs_generator.specs.Generated.{row_of, table_of, name_column, key_member, set_member, insert_write, update_write, delete_write, write_of};

use cs_types::Memory;
use std::alloc::Global;

/// The write of commit i: each row is inserted, gets a new name, then a new note, is deleted, and
/// is inserted again.
pub(crate) fn write_of(alloc: Global, i: u64) -> Result<String, Memory>
    ensures { IfOk result (λ s. string_bytes s ≡ write_of i) }
{
    let turn = i / 500 % 4;
    if turn == 0 {
        return insert_write(alloc, i);
    }
    if turn == 1 {
        return update_write(alloc, name_column(i), i);
    }
    if turn == 2 {
        return update_write(alloc, "Note", i);
    }
    delete_write(alloc, i)
}

fn table_of(i: u64) -> &'static str
    ensures { result.now ≡ table_of i }
{
    if i % 500 % 2 == 0 {
        "Singers"
    } else {
        "Albums"
    }
}

fn name_column(i: u64) -> &'static str
    ensures { result.now ≡ name_column i }
{
    if i % 500 % 2 == 0 { "Name" } else { "Title" }
}

fn key_member(alloc: Global, i: u64) -> Result<String, Memory>
    ensures { IfOk result (λ s. string_bytes s ≡ key_member i) }
{
    let row = i % 500;
    Ok(format!(in alloc; "\"key\":{{\"Id\":\"{row}\"}}")?)
}

fn set_member(alloc: Global, column: &str, i: u64) -> Result<String, Memory>
    ensures { IfOk result (λ s. string_bytes s ≡ set_member column.now i) }
{
    Ok(format!(in alloc; "\"set\":{{\"{column}\":\"n{i}\"}}")?)
}

fn insert_write(alloc: Global, i: u64) -> Result<String, Memory>
    ensures { IfOk result (λ s. string_bytes s ≡ insert_write i) }
{
    let table = table_of(i);
    let key = key_member(alloc, i)?;
    let set = set_member(alloc, name_column(i), i)?;
    Ok(format!(in alloc; "{{\"insert\":\"{table}\",{key},{set}}}")?)
}

fn update_write(alloc: Global, column: &str, i: u64) -> Result<String, Memory>
    ensures { IfOk result (λ s. string_bytes s ≡ update_write column.now i) }
{
    let key = key_member(alloc, i)?;
    let set = set_member(alloc, column, i)?;
    let table = table_of(i);
    Ok(format!(in alloc; "{{{key},{set},\"update\":\"{table}\"}}")?)
}

fn delete_write(alloc: Global, i: u64) -> Result<String, Memory>
    ensures { IfOk result (λ s. string_bytes s ≡ delete_write i) }
{
    let table = table_of(i);
    let key = key_member(alloc, i)?;
    Ok(format!(in alloc; "{{\"delete\":\"{table}\",{key}}}")?)
}
