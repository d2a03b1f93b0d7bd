ghost use Rattle.std.specs.Prelude.{◌≡◌, ◌+◌, ◌<◌, ◌≤◌, length, map, IfOk};
ghost use Rattle.le_layout.specs.Layout.{IsLayout, token_text};
ghost use Rattle.le_layout.specs.Words.{text_of, tokens_of, token_of, spaced as spaced_texts, has_word as has_word_of, has_words as has_words_of};

use crate::{Kind, Lines, Span, Token, Tokens};
use le_base::Text;
use std::alloc::{AllocError, Global};

/// A text with its tokens and its lines.
#[derive(Debug, Drop)]
pub struct Layout {
    /// The text.
    pub text: Text,
    /// Its tokens, in order.
    pub tokens: Tokens,
    /// Its lines that have a token, in order.
    pub lines: Lines,
}

impl Layout {
    /// The text of the token with this number, counted from 0. The layout is valid and has the
    /// token.
    pub fn word(&self, token: u32) -> &str
        requires sound { IsLayout self.now }
        requires inside { token < length self.now.tokens }
        ensures { result.now ≡ token_text self.now token }
    {
        let token = self.tokens.as_slice()[token as usize];
        &self.text.as_str()[token.from as usize..token.to as usize]
    }

    /// The texts of some tokens joined by one space, or the empty text where there is no token. The layout is
    /// valid and has the tokens.
    pub fn spaced(&self, alloc: Global, tokens: Span) -> Result<Text, AllocError>
        requires sound { IsLayout self.now }
        requires inside { tokens.to ≤ length self.now.tokens }
        ensures { IfOk result (λ text. text ≡ spaced_texts (map (text_of self.now) (tokens_of self.now tokens))) }
    {
        if tokens.to <= tokens.from {
            return Ok(Text::new(alloc));
        }
        let mut text = Text::of(alloc, self.word(tokens.from))?;
        for at in tokens.from + 1..tokens.to {
            text.push_str(" ")?;
            text.push_str(self.word(at))?;
        }
        Ok(text)
    }

    /// The token with this number, counted from 0. The layout has it.
    pub fn token(&self, token: u32) -> Token
        requires inside { token < length self.now.tokens }
        ensures { result ≡ token_of self.now token }
    {
        self.tokens.as_slice()[token as usize]
    }

    /// Whether the token with this number is this word, ASCII case ignored. The layout is valid and has the
    /// token.
    #[tactic(auto, unfolding(crate::specs::Words::has_word))]
    pub fn has_word(&self, token: u32, word: &str) -> bool
        requires sound { IsLayout self.now }
        requires inside { token < length self.now.tokens }
        ensures { result ≡ has_word_of self.now token word.now }
    {
        self.token(token).kind.is_word() && self.word(token).eq_ignore_ascii_case(word)
    }

    /// Whether the tokens from this number on are these words, ASCII case ignored. The layout is valid and
    /// has so many tokens from there on.
    pub fn has_words(&self, token: u32, words: &[&str]) -> bool
        requires sound { IsLayout self.now }
        requires inside { token + length words.now ≤ length self.now.tokens }
        ensures { result ≡ has_words_of self.now token (map (λ w. w.now) words.now) }
    {
        for i in 0..words.len() {
            if !self.has_word(token + i as u32, words[i]) {
                return false;
            }
        }
        true
    }
}
