//! Forms one after the other, with commas between them.

ghost use Rattle.std.specs.Prelude.{◌≡◌};
ghost use Rattle.aq_grammar.specs.Steps.{Gives, read_listed};

use crate::terminals::{Read, is_symbol, sign};
use aq_base::List;
use aq_lex::{Lexed, Symbol};
use std::alloc::Global;

/// A form that can be read. It is never empty.
pub trait Form {
    ghost use Rattle.std.specs.Prelude.{◌≡◌, ◌<◌, List, length};
    ghost use Rattle.aq_lex.specs.Lexemes.{PlacedLexeme};
    ghost use Rattle.aq_grammar.specs.Reading.{Outcome, Read};

    /// What it stands for.
    type Tree: Drop;

    ghost reading: { Self → List PlacedLexeme → Outcome Self.Tree };

    /// Reads the form.
    fn read<'a>(&self, tokens: &Lexed<'a>) -> Read<'a, Self::Tree>
        ensures { Gives (λ x. x) result (reading self.now tokens.now) };

    ghost shortens: { (form : Self) (tokens rest : List PlacedLexeme) (x : Self.Tree) → reading form tokens ≡ Read x rest → length rest < length tokens };
}

/// At least one, with commas between them.
pub fn listed<'a, F: Form>(alloc: Global, form: &F, tokens: &Lexed<'a>) -> Read<'a, List<F::Tree>>
    ensures { Gives (λ x. x) result (read_listed (F.reading form.now) tokens.now) }
{
    let mut trees = List::new(alloc);
    let (first, mut rest) = form.read(tokens)?;
    trees.push(first)?;
    'trees: while is_symbol(&rest, Symbol::Comma) {
        let ((), behind) = sign(&rest, Symbol::Comma)?;
        let (next, after) = form.read(&behind)?;
        trees.push(next)?;
        rest = after;
    }
    Ok((trees, rest))
}
