ghost use Rattle.std.specs.Prelude.{◌≡◌, ℕ, List};
ghost use Rattle.cs_ddl.specs.Reading.{Gives};
ghost use Rattle.cs_ddl.specs.Productions.{all_at, end_at};
ghost use Rattle.cs_ddl.specs.declared.tree.Statement.{Statement as Tree};
ghost use Rattle.cs_ddl.specs.Text.{IsTextOf, Answers, IsThis};
ghost use Rattle.cs_ddl.specs.Grammars.{statements};

use crate::Statement;
use crate::answer::answer;
use crate::cursor::Cursor;
use crate::fault::{Refusal, SyntaxFault};
use crate::grammar::statement;
use crate::lex::tokens;
use crate::token::{Kind, Token};
use std::alloc::Global;

/// Ends a text: a `;` may stand there, and nothing else.
#[tactic(auto, unfolding(crate::specs::Productions::end_at))]
pub(crate) fn ended<T: Drop>(tree: T, cursor: &mut Cursor) -> Result<T, Refusal>
    ensures { Gives (λ x. x) result (end_at tree cursor.old) }
{
    if cursor.is_sign(Kind::Semicolon) {
        cursor.skip();
    }
    match cursor.left() {
        0 => Ok(tree),
        left => Err(Refusal::Left(left)),
    }
}

#[tactic(auto, unfolding(crate::specs::Productions::all_at))]
fn all<'t>(alloc: Global, tokens: &'t [Token<'t>]) -> Result<Statement, Refusal>
    ensures { Gives (λ s. s) result (all_at tokens.now) }
{
    let mut cursor = Cursor::new(tokens);
    let statement = statement(alloc, &mut cursor)?;
    ended(statement, &mut cursor)
}

/// The statement that a text is. `At` holds the place of the first token, or the end, with which
/// no statement goes on; `Memory` is want of memory, and comes for no other reason.
pub fn parse_ddl(alloc: Global, text: &[u8]) -> Result<Statement, SyntaxFault>
    ensures answers { Answers statements text.now result }
    ensures only { (s : Tree) → IsTextOf statements text.now s → IsThis s result }
{
    let tokens = tokens(alloc, text)?;
    let read = all(alloc, &tokens);
    answer(text.len(), &tokens, read)
}

/// A text is one statement at most.
pub fn one_tree()
    ensures { (bytes : List ℕ) (s r : Tree) → IsTextOf statements bytes s → IsTextOf statements bytes r → s ≡ r }
{}
