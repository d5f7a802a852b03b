// The query of a READ among the words of a command line.
ghost use Rattle.std.specs.Prelude.{map, string_bytes, IfOk, IfErr};
ghost use Rattle.cs_words.specs.Words.{IsQueryAt, IsNoQueryAt};

use crate::WordsFault;
use crate::window::word_at;
use cs_ddl::{ReadQuery, SyntaxFault, parse_query};
use std::alloc::Global;

/// The query that the word at a place is.
pub(crate) fn query_word(
    alloc: Global,
    words: &[String],
    at: usize,
) -> Result<ReadQuery, WordsFault>
    ensures query { IfOk result (IsQueryAt (map string_bytes words.now) at) }
    ensures refused { IfErr result (IsNoQueryAt (map string_bytes words.now) at) }
{
    let Some(word) = word_at(words, at) else {
        return Err(WordsFault::At(at));
    };
    match parse_query(alloc, word.as_bytes()) {
        Ok(query) => Ok(query),
        Err(SyntaxFault::At(_)) => Err(WordsFault::At(at)),
        Err(SyntaxFault::Memory) => Err(WordsFault::Memory),
    }
}
