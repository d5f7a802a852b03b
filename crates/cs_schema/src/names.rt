ghost use Rattle.std.specs.Prelude.{◌≡◌, [], IfOk};
ghost use Rattle.std.specs.Str.Lossy.{utf8_lossy};
ghost use Rattle.cs_schema.specs.Names.{names_of};
ghost use Rattle.cs_types.specs.Names.{first_again};

use cs_ddl::Word;
use cs_types::{Duplicate, Items, Memory, Text};
use std::alloc::Global;
use std::collections::BTreeMap;

/// A word as text. The names of the grammar are ASCII, and stay as they are.
pub(crate) fn text(alloc: Global, word: &Word) -> Result<Text, Memory>
    ensures { IfOk result (λ t. t ≡ utf8_lossy word.now) }
{
    let read = String::from_utf8_lossy(alloc, word.as_slice())?;
    Text::of(alloc, read.as_str())
}

/// Words as texts.
pub(crate) fn texts(alloc: Global, words: &[Word]) -> Result<Items<Text>, Memory>
    ensures { IfOk result (λ t. t ≡ names_of words.now) }
{
    let mut names = Items::new(alloc);
    for word in words {
        names.push(text(alloc, word)?)?;
    }
    Ok(names)
}

/// The first name that stands in the list before it.
pub(crate) fn again(alloc: Global, names: &[Text]) -> Result<Option<Text>, Memory>
    ensures { IfOk result (λ n. n ≡ first_again [] names.now) }
{
    let mut seen = BTreeMap::new(alloc);
    for name in names {
        if seen.contains_key(name) {
            return Ok(Some(name.copy()?));
        }
        seen.insert(name.copy()?, ())?;
    }
    Ok(None)
}
