ghost use Rattle.std.specs.Prelude.{◌≡◌, IfOk, true};
ghost use Rattle.std.specs.Str.Lossy.{utf8_lossy};
ghost use Rattle.cs_types.specs.Token.{is_token};
ghost use Rattle.cs_partitions.specs.Layout.{new_layout};
ghost use Rattle.cs_partitions.specs.Tokens.{token_of};
ghost use Rattle.cs_script.specs.Takes.{HasNames, layouts_made};

use cs_ddl::{Statement, Word};
use cs_partitions::Layout;
use cs_types::{Memory, Stamp, Text};
use std::alloc::Global;

/// The layout of the stream that a statement makes, where it makes one.
pub(crate) fn layouts_made(
    alloc: Global,
    at: Stamp,
    statement: &Statement,
) -> Result<Vec<Layout>, Memory>
    requires { HasNames statement.now }
    ensures { IfOk result (λ made. made.items ≡ layouts_made at statement.now) }
{
    let mut made = Vec::new(alloc);
    if let Statement::CreateStream { name, .. } = statement {
        made.push(layout_of(alloc, name, at)?)?;
    }
    Ok(made)
}

/// The layout of a stream that is made at a moment.
fn layout_of(alloc: Global, name: &Word, at: Stamp) -> Result<Layout, Memory>
    requires { is_token (token_of (utf8_lossy name.now) 0) ≡ true }
    ensures { IfOk result (λ l. l ≡ new_layout (utf8_lossy name.now) at) }
{
    let read = String::from_utf8_lossy(alloc, name.as_slice())?;
    let name = Text::of(alloc, read.as_str())?;
    Layout::new(alloc, &name, at)
}
