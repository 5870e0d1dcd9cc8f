//! Facts of all bytes.

ghost use Rattle.std.specs.Prelude.{◌≡◌, ◌<◌, ℕ, List, length, take};
ghost use Rattle.std.specs.List.{AllByRecursion};
ghost use Rattle.aq_lex.specs.declared.token.Token.{Token};
ghost use Rattle.aq_lex.specs.Tokens.{Lexes, NoTokenAt, Quotes};
ghost use Rattle.aq_lex.specs.Lexemes.{IsSpelled, unquoted};

/// Bytes are one list of tokens at the most.
pub fn one_list()
    ensures { (bytes : List ℕ) (a b : List Token) → Lexes bytes a → Lexes bytes b → a ≡ b }
{}

/// Where bytes are a list of tokens, there is no place where none begins.
pub fn never_both()
    ensures { (bytes : List ℕ) (tokens : List Token) (at : ℕ) → Lexes bytes tokens → NoTokenAt bytes at → ⊥ }
{}

/// There is one place at the most where no token begins, and it is within the bytes.
pub fn one_place()
    ensures once { (bytes : List ℕ) (a b : ℕ) → NoTokenAt bytes a → NoTokenAt bytes b → a ≡ b }
    ensures within { (bytes : List ℕ) (at : ℕ) → NoTokenAt bytes at → at < length bytes }
{}

/// The bytes before the place where no token begins are tokens by themselves.
pub fn tokens_before()
    ensures { (bytes : List ℕ) (at : ℕ) → NoTokenAt bytes at → (tokens : List Token) × Lexes (take at bytes) tokens }
{}

/// The bytes of each token spell it, in front of those that stand behind it.
pub fn tokens_spelled()
    ensures { (bytes : List ℕ) (tokens : List Token) → Lexes bytes tokens → AllByRecursion (IsSpelled bytes) tokens }
{}

/// A text that is spelled between quotes is the value of that spelling.
pub fn text_is_value()
    ensures { (quote : ℕ) (text bytes behind : List ℕ) → Quotes quote text bytes behind → unquoted quote bytes ≡ text }
{}
