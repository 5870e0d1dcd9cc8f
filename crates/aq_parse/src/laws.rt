//! Facts of all tokens.

ghost use Rattle.std.specs.Prelude.{◌≡◌, ℕ, List};
ghost use Rattle.aq_base.specs.declared.fault.SqlFault.{SqlFault};
ghost use Rattle.aq_lex.specs.Lexemes.{PlacedLexeme};
ghost use Rattle.aq_parse.specs.Parsed.{IsParsed, IsRefusedStatement};
ghost use Rattle.aq_parse.specs.Statements.{statement_of};
ghost use Rattle.aq_parse.specs.declared.parsing.Parsed.{Parsed};
ghost use Rattle.aq_parse.specs.declared.statements.Place.{Place};

/// At most one statement is read from a place in tokens, and it has one end.
pub fn one_statement()
    ensures { (place : Place) (tokens : List PlacedLexeme) (from : ℕ) (one other : Parsed)
        → IsParsed (statement_of place) tokens from one → IsParsed (statement_of place) tokens from other → one ≡ other }
{}

/// At most one place is refused first where a statement is read from a place in tokens, with one fault.
pub fn one_refusal()
    ensures { (place : Place) (tokens : List PlacedLexeme) (from at behind : ℕ) (one other : SqlFault)
        → IsRefusedStatement (statement_of place) tokens from at one → IsRefusedStatement (statement_of place) tokens from behind other → (at ≡ behind) × (one ≡ other) }
{}
