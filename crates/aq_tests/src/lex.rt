//! Bytes cut into tokens, bytes at which no token begins, and what is read of tokens.

use crate::table::{Subject, first_wrong};
use aq_base::NoMemory;
use aq_lex::{Directive, LexFault, Lexed, Symbol, Token, TokenKind, lex, line_at};
use std::alloc::Global;
use std::test::Fail;

// A `~` stands for a byte that no UTF-8 has.
fn bytes_of(alloc: Global, text: &str) -> Result<Vec<u8>, NoMemory> {
    let mut bytes = Vec::new(alloc);
    for byte in text.bytes() {
        bytes.push(if byte == b'~' { 0xFF } else { byte })?;
    }
    Ok(bytes)
}

fn symbol_name(symbol: Symbol) -> &'static str {
    match symbol {
        Symbol::OpenParen => "open",
        Symbol::CloseParen => "close",
        Symbol::Comma => "comma",
        Symbol::Semicolon => "semicolon",
        Symbol::Dot => "dot",
        Symbol::Plus => "plus",
        Symbol::Minus => "minus",
        Symbol::Times => "times",
        Symbol::Equal => "equal",
        Symbol::Unequal => "unequal",
        Symbol::Less => "less",
        Symbol::AtMost => "at most",
        Symbol::Greater => "greater",
        Symbol::AtLeast => "at least",
        Symbol::DollarQuote => "dollars",
    }
}

fn kind_name(kind: TokenKind) -> &'static str {
    match kind {
        TokenKind::Word => "word",
        TokenKind::QuotedName => "name",
        TokenKind::Integer => "integer",
        TokenKind::Text => "text",
        TokenKind::Symbol(symbol) => symbol_name(symbol),
        TokenKind::Directive(Directive::Setup) => "setup",
        TokenKind::Directive(Directive::Session) => "session",
        TokenKind::Directive(Directive::Schedule) => "schedule",
    }
}

fn tokens_told(alloc: Global, tokens: &[Token]) -> Result<String, NoMemory> {
    let mut told = String::new(alloc);
    for token in tokens {
        let kind = kind_name(token.kind);
        let (from, to) = (token.from, token.to);
        told.push_str(format!(in alloc; "{kind} {from} {to};")?.as_str())?;
    }
    Ok(told)
}

// The tokens of bytes, each with the places where it begins and ends.
struct Tokens;

impl Subject for Tokens {
    fn answer(&self, alloc: Global, question: &str) -> Result<String, NoMemory> {
        match lex(alloc, bytes_of(alloc, question)?.as_slice()) {
            Ok(tokens) => tokens_told(alloc, tokens.as_slice()),
            Err(LexFault::BadToken { at }) => format!(in alloc; "refused at {at}"),
            Err(LexFault::NoMemory) => Err(NoMemory),
        }
    }
}

const TOKENS: &str = "\
==== 
---- 
====  \t\r\n
---- 
==== abc
---- word 0 3;
==== _a1$ B
---- word 0 4;word 5 6;
==== END$$
---- word 0 5;
==== 1a
---- integer 0 1;word 1 2;
==== a1
---- word 0 2;
==== 99999999999999999999
---- integer 0 20;
==== ''
---- text 0 2;
==== ''''
---- text 0 4;
==== 'a''b'c
---- text 0 6;word 6 7;
==== 'a\nb'
---- text 0 5;
==== 'é'
---- text 0 4;
==== \"\"\"\"
---- name 0 4;
==== \"a\"\"b\"
---- name 0 6;
==== \"a\"'b'
---- name 0 3;text 3 6;
==== (),;.
---- open 0 1;close 1 2;comma 2 3;semicolon 3 4;dot 4 5;
==== +-*=
---- plus 0 1;minus 1 2;times 2 3;equal 3 4;
==== <=>=<>!=
---- at most 0 2;at least 2 4;unequal 4 6;unequal 6 8;
==== < >$$
---- less 0 1;greater 2 3;dollars 3 5;
==== -- a
---- 
==== a--b\nc
---- word 0 1;word 5 6;
==== \\setup--\n \\schedule
---- setup 0 6;schedule 10 19;
==== \\sessiona
---- session 0 8;word 8 9;
==== a ?
---- refused at 2
==== a $ b
---- refused at 2
==== $$$
---- refused at 2
==== !
---- refused at 0
==== é
---- refused at 0
==== a\n'b
---- refused at 2
==== a ''' 
---- refused at 2
====  \"\"
---- refused at 1
==== '~'
---- refused at 0
==== \"~\"
---- refused at 0
==== 1 --~\n2
---- refused at 2
==== \\Setup
---- refused at 0
==== a \\setup
---- refused at 2
==== 'a\n' \\setup
---- refused at 5
==== \\setup\\session
---- refused at 6
";

// What the first token is: of some words, symbols and directives.
fn names_of(alloc: Global, lexed: &Lexed) -> Result<String, NoMemory> {
    let mut names = String::new(alloc);
    for word in ["ab", "Ab", "abc", "a", ""] {
        if lexed.is_word(word.as_bytes()) {
            names.push_str(word)?;
            names.push('.')?;
        }
    }
    for (symbol, name) in [(Symbol::Semicolon, ";."), (Symbol::Comma, ",.")] {
        if lexed.is_symbol(symbol) {
            names.push_str(name)?;
        }
    }
    for (directive, name) in [
        (Directive::Setup, "setup."),
        (Directive::Session, "session."),
    ] {
        if lexed.is_directive(directive) {
            names.push_str(name)?;
        }
    }
    Ok(names)
}

// A line on a first token, and the count of the tokens from it on.
fn token_told(alloc: Global, lexed: &Lexed) -> Result<String, NoMemory> {
    let count = lexed.len();
    let kind = match lexed.kind() {
        Some(kind) => kind_name(kind),
        None => "none",
    };
    let (line, length, integer) = (lexed.line(), lexed.text_len(), lexed.integer());
    let names = names_of(alloc, lexed)?;
    match lexed.text(alloc)? {
        Some(text) => {
            let text = text.as_str();
            format!(in alloc; "{count} {kind} {line:?} {length:?} {integer:?} {names} {text}\n")
        }
        None => format!(in alloc;
            "{count} {kind} {line:?} {length:?} {integer:?} {names} no text\n"
        ),
    }
}

// What is read of each token, and behind the last.
struct Reading;

impl Subject for Reading {
    fn answer(&self, alloc: Global, question: &str) -> Result<String, NoMemory> {
        let Ok(tokens) = lex(alloc, question.as_bytes()) else {
            return "refused".to_string(alloc);
        };
        let mut told = String::new(alloc);
        let mut lexed = Lexed::new(question.as_bytes(), tokens.as_slice());
        for _ in tokens.as_slice() {
            if lexed.is_empty() {
                told.push_str("too early an end\n")?;
            }
            told.push_str(token_told(alloc, &lexed)?.as_str())?;
            lexed = lexed.copied().rest();
        }
        if lexed.is_empty() && lexed.rest().is_empty() {
            told.push_str(token_told(alloc, &lexed)?.as_str())?;
        }
        Ok(told)
    }
}

const READING: &str = "\
==== Ab
\"C\"\"d\"

'' 'x''''y' 007 9223372036854775807 9223372036854775808 ;
---- 8 word Some(1) Some(2) None ab. ab
7 name Some(2) Some(3) None  C\"d
6 text Some(4) Some(0) None  \n\
5 text Some(4) Some(4) None  x''y
4 integer Some(4) None Some(7)  no text
3 integer Some(4) None Some(9223372036854775807)  no text
2 integer Some(4) None None  no text
1 semicolon Some(4) None None ;. no text
0 none None None None  no text

==== \n\\session a
---- 2 session Some(2) None None session. no text
1 word Some(2) Some(1) None a. a
0 none None None None  no text

";

// The line of a place in bytes.
struct Lines;

impl Subject for Lines {
    fn answer(&self, alloc: Global, question: &str) -> Result<String, NoMemory> {
        match question.parse::<usize>() {
            Ok(at) => format!(in alloc; "{}", line_at(b"a\n\nb", at)),
            Err(_) => "no place".to_string(alloc),
        }
    }
}

const LINES: &str = "\
==== 0
---- 1
==== 1
---- 1
==== 2
---- 2
==== 3
---- 3
==== 4
---- 3
==== 9
---- 3
";

#[test]
fn bytes_and_their_tokens(rt: HostRuntime) -> Result<(), Fail> {
    assert_eq!(rt; first_wrong(rt.alloc(), &Tokens, TOKENS)?, None);
    assert_eq!(rt; first_wrong(rt.alloc(), &Reading, READING)?, None);
    assert_eq!(rt; first_wrong(rt.alloc(), &Lines, LINES)?, None);
    Ok(())
}
