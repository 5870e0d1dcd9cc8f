//! Names with commas between them.

ghost use Rattle.aq_grammar.specs.Changes.{column_list};
ghost use Rattle.aq_grammar.specs.Forms.{names};
ghost use Rattle.aq_grammar.specs.Nonterminals.{reads};
ghost use Rattle.aq_grammar.specs.Steps.{Gives};

use crate::listing::{Form, listed};
use crate::terminals::{Read, is_symbol, name, sign};
use aq_base::{List, TextVal};
use aq_lex::{Lexed, Symbol};
use std::alloc::Global;

#[derive(Drop)]
struct NameForm {
    alloc: Global,
}

impl Form for NameForm {
    ghost use Rattle.aq_grammar.specs.Forms.{name};
    ghost use Rattle.aq_grammar.specs.Nonterminals.{reads};
    ghost use Rattle.aq_grammar.specs.Shorter.{name_is_shorter};

    type Tree = TextVal;

    ghost reading = { λ form tokens. reads name tokens };

    ghost shortens = { λ form. name_is_shorter };

    fn read<'a>(&self, tokens: &Lexed<'a>) -> Read<'a, TextVal> {
        name(self.alloc, tokens)
    }
}

/// One name or more, with commas between them.
#[tactic(auto, unfolding(crate::specs::Forms::names, crate::specs::Steps::read_listed))]
pub fn names<'a>(alloc: Global, tokens: &Lexed<'a>) -> Read<'a, List<TextVal>>
    ensures { Gives (λ x. x) result (reads names tokens.now) }
{
    listed(alloc, &NameForm { alloc }, tokens)
}

/// `(name, name)`, which may be left out.
#[tactic(auto, unfolding(crate::specs::Changes::column_list))]
pub fn column_list<'a>(alloc: Global, tokens: &Lexed<'a>) -> Read<'a, Option<List<TextVal>>>
    ensures { Gives (λ x. x) result (reads column_list tokens.now) }
{
    if !is_symbol(tokens, Symbol::OpenParen) {
        return Ok((None, tokens.copied()));
    }
    let ((), rest) = sign(tokens, Symbol::OpenParen)?;
    let (columns, rest) = names(alloc, &rest)?;
    let ((), rest) = sign(&rest, Symbol::CloseParen)?;
    Ok((Some(columns), rest))
}
