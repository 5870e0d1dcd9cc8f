//! Tokens, with one blank between two of them, but where one joins the other.

ghost use Rattle.std.specs.Prelude.{◌≡◌, ◌++◌, ◌∷◌, [], map, OnOk, if◌then◌else◌};
ghost use Rattle.aq_lex.specs.Tokens.{directive_bytes};
ghost use Rattle.aq_texts.specs.Written.{symbol_text, joins_last, joins_next, is_minus, Said, Heading, Name, Number, Literal, Mark, Sign, Call, Repeat};
ghost use Rattle.aq_print.specs.Printing.{put, put_all, fresh};

use crate::names::{push_name, push_quoted};
use crate::numbers::push_number;
use aq_base::{List, NoMemory, TextVal};
use aq_lex::{Directive, Symbol};
use std::alloc::Global;
use std::marker::Model;

/// What has been printed. After an error it stands as it was or with a part of the token more.
#[derive(Drop)]
pub struct Printer {
    out: Vec<u8>,
    joins: bool,
    behind_minus: bool,
}

impl Model for Printer {
    ghost use Rattle.aq_print.specs.Printing.{Printed};

    ghost Value = { Printed };

    ghost view = { λ p. record { text = p.out.items; joins = p.joins; behind_minus = p.behind_minus } };
}

fn push_blank(out: &mut Vec<u8>, joins: bool) -> Result<(), NoMemory>
    ensures { OnOk result (out.new.items ≡ out.old.items ++ (if joins then [] else 32 ∷ [])) }
{
    if !joins {
        out.push(b' ')?;
    }
    Ok(())
}

fn symbol_text(symbol: Symbol) -> &'static str
    ensures { result.now ≡ symbol_text symbol }
{
    match symbol {
        Symbol::OpenParen => "(",
        Symbol::CloseParen => ")",
        Symbol::Comma => ",",
        Symbol::Semicolon => ";",
        Symbol::Dot => ".",
        Symbol::Plus => "+",
        Symbol::Minus => "-",
        Symbol::Times => "*",
        Symbol::Equal => "=",
        Symbol::Unequal => "<>",
        Symbol::Less => "<",
        Symbol::AtMost => "<=",
        Symbol::Greater => ">",
        Symbol::AtLeast => ">=",
        Symbol::DollarQuote => "$$",
    }
}

fn directive_text(directive: Directive) -> &'static str
    ensures { result.now ≡ directive_bytes directive }
{
    match directive {
        Directive::Setup => "\\setup",
        Directive::Session => "\\session",
        Directive::Schedule => "\\schedule",
    }
}

fn joins_last(symbol: Symbol) -> bool
    ensures { result ≡ joins_last (Mark symbol) }
{
    match symbol {
        Symbol::CloseParen | Symbol::Comma | Symbol::Semicolon | Symbol::Dot => true,
        _ => false,
    }
}

fn joins_next(symbol: Symbol) -> bool
    ensures { result ≡ joins_next (Mark symbol) }
{
    match symbol {
        Symbol::OpenParen | Symbol::Dot => true,
        _ => false,
    }
}

fn is_minus(symbol: Symbol) -> bool
    ensures { result ≡ is_minus (Mark symbol) }
{
    match symbol {
        Symbol::Minus => true,
        _ => false,
    }
}

#[tactic(auto, unfolding(crate::specs::Printing::put))]
impl Printer {
    /// Nothing yet.
    pub fn new(alloc: Global) -> Printer
        ensures { result ≡ fresh [] }
    {
        Printer {
            out: Vec::new(alloc),
            joins: true,
            behind_minus: false,
        }
    }

    /// A word of the language.
    pub fn word(&mut self, text: &str) -> Result<(), NoMemory>
        ensures { OnOk result (self.new ≡ put self.old (Said text.now)) }
    {
        push_blank(&mut self.out, self.joins)?;
        self.out.extend_from_slice(text.as_bytes())?;
        self.joins = false;
        self.behind_minus = false;
        Ok(())
    }

    /// A directive, with which a section begins.
    pub fn heading(&mut self, directive: Directive) -> Result<(), NoMemory>
        ensures { OnOk result (self.new ≡ put self.old (Heading directive)) }
    {
        push_blank(&mut self.out, self.joins)?;
        self.out
            .extend_from_slice(directive_text(directive).as_bytes())?;
        self.joins = false;
        self.behind_minus = false;
        Ok(())
    }

    /// A name.
    pub fn name(&mut self, name: &TextVal) -> Result<(), NoMemory>
        ensures { OnOk result (self.new ≡ put self.old (Name name.now)) }
    {
        push_blank(&mut self.out, self.joins)?;
        push_name(&mut self.out, name)?;
        self.joins = false;
        self.behind_minus = false;
        Ok(())
    }

    /// A number in digits.
    pub fn number(&mut self, n: u64) -> Result<(), NoMemory>
        ensures { OnOk result (self.new ≡ put self.old (Number n)) }
    {
        push_blank(&mut self.out, self.joins)?;
        push_number(&mut self.out, n)?;
        self.joins = false;
        self.behind_minus = false;
        Ok(())
    }

    /// A text between single quotes.
    pub fn literal(&mut self, text: &TextVal) -> Result<(), NoMemory>
        ensures { OnOk result (self.new ≡ put self.old (Literal text.now)) }
    {
        self.literal_of(text.bytes())
    }

    /// A text between single quotes, by its bytes.
    pub fn literal_of(&mut self, bytes: &[u8]) -> Result<(), NoMemory>
        ensures { OnOk result (self.new ≡ put self.old (Literal bytes.now)) }
    {
        push_blank(&mut self.out, self.joins)?;
        push_quoted(&mut self.out, b'\'', bytes)?;
        self.joins = false;
        self.behind_minus = false;
        Ok(())
    }

    /// A symbol, but for the signs and parentheses that join what they belong to.
    pub fn mark(&mut self, symbol: Symbol) -> Result<(), NoMemory>
        ensures { OnOk result (self.new ≡ put self.old (Mark symbol)) }
    {
        let joined = !(is_minus(symbol) && self.behind_minus) && self.joins;
        push_blank(&mut self.out, joins_last(symbol) || joined)?;
        self.out.extend_from_slice(symbol_text(symbol).as_bytes())?;
        self.joins = joins_next(symbol);
        self.behind_minus = is_minus(symbol);
        Ok(())
    }

    /// The sign of an operand, or of a constant.
    pub fn sign(&mut self) -> Result<(), NoMemory>
        ensures { OnOk result (self.new ≡ put self.old Sign) }
    {
        push_blank(&mut self.out, !self.behind_minus && self.joins)?;
        self.out.push(b'-')?;
        self.joins = true;
        self.behind_minus = true;
        Ok(())
    }

    /// The `(` behind the name of a function.
    pub fn call(&mut self) -> Result<(), NoMemory>
        ensures { OnOk result (self.new ≡ put self.old Call) }
    {
        self.out.push(b'(')?;
        self.joins = true;
        self.behind_minus = false;
        Ok(())
    }

    /// The `*` between a session and its number of steps.
    pub fn repeat(&mut self) -> Result<(), NoMemory>
        ensures { OnOk result (self.new ≡ put self.old Repeat) }
    {
        self.out.push(b'*')?;
        self.joins = true;
        self.behind_minus = false;
        Ok(())
    }

    /// The end of a line.
    pub fn end_line(&mut self) -> Result<(), NoMemory>
        ensures { OnOk result (self.new ≡ fresh (self.old.text ++ 10 ∷ [])) }
    {
        self.out.push(b'\n')?;
        self.joins = true;
        self.behind_minus = false;
        Ok(())
    }

    /// The bytes that have been printed.
    pub fn finish(self) -> List<u8>
        ensures { result ≡ self.text }
    {
        let Printer { out, .. } = self;
        List::from_vec(out)
    }
}

#[tactic(auto, using(crate::proofs::Printing::put_all_append))]
impl Printer {
    /// Words of the language.
    pub fn words(&mut self, texts: &[&str]) -> Result<(), NoMemory>
        ensures { OnOk result (self.new ≡ put_all self.old (map (λ text. Said text.now) texts.now)) }
    {
        for text in texts {
            self.word(text)?;
        }
        Ok(())
    }
}
