use cs_ddl::{ColumnTree, CopyTree, Run, Statement, SyntaxFault, Word, parse_ddl};
use std::alloc::{AllocError, Global};
use std::test::Fail;

const TABLE: &[u8] = b"CREATE TABLE t (k INT64 NOT NULL, b BYTES(9)) PRIMARY KEY (k ASC)";

fn is_word(word: &Word, text: &str) -> bool {
    word.as_slice() == text.as_bytes()
}

fn are_columns(columns: &Run<ColumnTree>) -> bool {
    match columns.as_slice() {
        [k, b] => is_word(&k.name, "k") && k.not_null && is_word(&b.name, "b") && !b.not_null,
        _ => false,
    }
}

fn is_key(key: &Run<Word>) -> bool {
    match key.as_slice() {
        [k] => is_word(k, "k"),
        _ => false,
    }
}

fn is_table(tree: &Statement) -> bool {
    match tree {
        Statement::CreateTable { name, columns, key } => {
            is_word(name, "t") && are_columns(columns) && is_key(key)
        }
        _ => false,
    }
}

fn is_read(alloc: Global) -> Result<bool, AllocError> {
    let Ok(tree) = parse_ddl(alloc, TABLE) else {
        return Ok(false);
    };
    Ok(is_table(&tree.copy()?))
}

#[test]
fn a_statement_is_its_tree(rt: HostRuntime) -> Result<(), Fail> {
    assert!(rt; is_read(rt.alloc())?);
    Ok(())
}

#[test]
fn a_fault_says_where_it_is(rt: HostRuntime) -> Result<(), Fail> {
    let fault = format!(in rt.alloc(); "{}", SyntaxFault::At(7))?;
    assert_eq!(rt; fault.as_str(), "the text is not understood from byte 7 on");
    Ok(())
}

fn is_statement(alloc: Global, text: &[u8]) -> bool {
    match parse_ddl(alloc, text) {
        Ok(_) => true,
        Err(_) => false,
    }
}

#[test]
fn blanks_of_all_kinds_stand_between_words(rt: HostRuntime) -> Result<(), Fail> {
    assert!(rt; is_statement(rt.alloc(), b"\tDROP\r\nCHANGE STREAM timestamp "));
    Ok(())
}
