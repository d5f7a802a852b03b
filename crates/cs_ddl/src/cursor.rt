ghost use Rattle.std.specs.Prelude.{◌≡◌, ℕ, List, Result, Ok, length};
ghost use Rattle.cs_ddl.specs.Reading.{Gives, word_at, sign_at, name_at, function_at, number_at, text_at, may_word_at, spelled_at, starts, behind, starts_with_sign, starts_with_word};
ghost use Rattle.cs_ddl.specs.Lists.{ends_behind};
ghost use Rattle.cs_ddl.specs.Token.{is_name};

use crate::Word;
use crate::fault::Refusal;
use crate::token::{Kind, Token};
use std::alloc::Global;
use std::marker::Model;

/// The tokens that are left, which contracts see as a list.
#[derive(Drop)]
pub(crate) struct Cursor<'t> {
    tokens: &'t [Token<'t>],
}

impl<'t> Model for Cursor<'t> {
    ghost use Rattle.std.specs.Prelude.{List};
    ghost use Rattle.cs_ddl.specs.Token.{Lexeme};

    ghost Value = { List Lexeme };

    ghost view = { λ c. c.tokens.now };
}

impl<'t> Cursor<'t> {
    pub(crate) fn new(tokens: &'t [Token<'t>]) -> Cursor<'t>
        ensures { result ≡ tokens.now }
    {
        Cursor { tokens }
    }

    /// How many tokens are left.
    pub(crate) fn left(&self) -> usize
        ensures { result ≡ length self.now }
    {
        self.tokens.len()
    }

    /// Whether this word of the grammar is next.
    pub(crate) fn is_word(&self, word: &[u8]) -> bool
        ensures { result ≡ starts_with_word word.now self.now }
    {
        match self.tokens {
            [first, ..] => first.is_word(word),
            [] => false,
        }
    }

    /// Whether this sign is next.
    pub(crate) fn is_sign(&self, kind: Kind) -> bool
        ensures { result ≡ starts_with_sign kind self.now }
    {
        match self.tokens {
            [first, ..] => first.is_kind(kind),
            [] => false,
        }
    }

    /// Whether a list ends here, behind a comma.
    pub(crate) fn ends_list(&self, trailing: bool) -> bool
        ensures { result ≡ ends_behind trailing self.now }
    {
        trailing && self.is_sign(Kind::Close)
    }

    /// Goes behind the next token.
    pub(crate) fn skip(&mut self)
        ensures { self.new ≡ behind self.old }
    {
        if let [_, rest @ ..] = self.tokens {
            self.tokens = rest;
        }
    }

    /// Goes behind this word of the grammar.
    #[tactic(auto, unfolding(crate::specs::Reading::word_at))]
    pub(crate) fn word(&mut self, word: &[u8]) -> Result<(), Refusal>
        ensures { Gives (λ _. (tt, self.new)) result (word_at word.now self.old) }
    {
        if self.is_word(word) {
            self.skip();
            Ok(())
        } else {
            Err(Refusal::Left(self.left()))
        }
    }

    /// Goes behind this sign.
    #[tactic(auto, unfolding(crate::specs::Reading::sign_at))]
    pub(crate) fn sign(&mut self, kind: Kind) -> Result<(), Refusal>
        ensures { Gives (λ _. (tt, self.new)) result (sign_at kind self.old) }
    {
        if self.is_sign(kind) {
            self.skip();
            Ok(())
        } else {
            Err(Refusal::Left(self.left()))
        }
    }

    /// Reads a name.
    #[tactic(auto, unfolding(crate::specs::Reading::name_at))]
    pub(crate) fn name(&mut self, alloc: Global) -> Result<Word, Refusal>
        ensures { Gives (λ w. (w, self.new)) result (name_at self.old) }
    {
        match self.tokens {
            [first, ..] if first.is_name(128) => {
                let name = Word::of(alloc, first.name_text())?;
                self.skip();
                Ok(name)
            }
            _ => Err(Refusal::Left(self.left())),
        }
    }

    /// Reads the name behind FROM.
    #[tactic(auto, unfolding(crate::specs::Reading::function_at))]
    pub(crate) fn function(&mut self, alloc: Global) -> Result<Word, Refusal>
        ensures { Gives (λ w. (w, self.new)) result (function_at self.old) }
    {
        match self.tokens {
            [first, ..] if first.is_name(133) => {
                let name = Word::of(alloc, first.name_text())?;
                self.skip();
                Ok(name)
            }
            _ => Err(Refusal::Left(self.left())),
        }
    }

    /// Goes behind this word of the grammar, where it is next.
    #[tactic(auto, unfolding(crate::specs::Reading::may_word_at))]
    pub(crate) fn may_word(&mut self, word: &[u8])
        ensures { may_word_at word.now self.old ≡ Ok (tt, self.new) }
    {
        if self.is_word(word) {
            self.skip();
        }
    }

    /// Whether a name is next.
    pub(crate) fn is_name(&self) -> bool
        ensures { result ≡ starts is_name self.now }
    {
        match self.tokens {
            [first, ..] => first.is_name(128),
            [] => false,
        }
    }

    /// Reads this word of the grammar as it is spelled.
    #[tactic(auto, unfolding(crate::specs::Reading::spelled_at))]
    pub(crate) fn spelled(&mut self, alloc: Global, word: &[u8]) -> Result<Word, Refusal>
        ensures { Gives (λ w. (w, self.new)) result (spelled_at word.now self.old) }
    {
        match self.tokens {
            [first, ..] if first.is_word(word) => {
                let spelled = Word::of(alloc, first.text())?;
                self.skip();
                Ok(spelled)
            }
            _ => Err(Refusal::Left(self.left())),
        }
    }

    /// Reads a number.
    #[tactic(auto, unfolding(crate::specs::Reading::number_at))]
    pub(crate) fn number(&mut self, alloc: Global) -> Result<Word, Refusal>
        ensures { Gives (λ w. (w, self.new)) result (number_at self.old) }
    {
        match self.tokens {
            [first, ..] if first.is_number() => {
                let number = Word::of(alloc, first.text())?;
                self.skip();
                Ok(number)
            }
            _ => Err(Refusal::Left(self.left())),
        }
    }

    /// Reads what stands in a text.
    #[tactic(auto, unfolding(crate::specs::Reading::text_at))]
    pub(crate) fn text(&mut self, alloc: Global) -> Result<Word, Refusal>
        ensures { Gives (λ w. (w, self.new)) result (text_at self.old) }
    {
        match self.tokens {
            [first, ..] if first.is_kind(Kind::Text) => {
                let text = Word::of(alloc, first.inner())?;
                self.skip();
                Ok(text)
            }
            _ => Err(Refusal::Left(self.left())),
        }
    }
}
