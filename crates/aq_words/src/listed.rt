//! The lists of words, decided word by word: what the parser of the command line takes besides them is none.

ghost use Rattle.std.specs.Prelude.{◌≡◌};
ghost use Rattle.aq_words.specs.Commands.{trace_of, rows_number, rows_of, check_of, command_of};

use crate::command::Command;
use aq_base::TextVal;
use itoa::Buffer;

fn trace(words: &[TextVal]) -> Option<bool>
    ensures { result ≡ trace_of words.now }
{
    match words {
        [] => Some(false),
        [word] if word.as_str() == "--trace" => Some(true),
        _ => None,
    }
}

/// The number that a text is in decimal, from 1 to 2000.
fn number(text: &str) -> Option<u16>
    ensures { result ≡ rows_number text.now }
{
    let mut n: u16 = 1;
    'numbers: while n <= 2000 {
        if text == Buffer::new().format(n) {
            return Some(n);
        }
        n += 1;
    }
    None
}

fn rows(words: &[TextVal]) -> Option<u16>
    ensures { result ≡ rows_of words.now }
{
    match words {
        [word] => number(word.as_str().strip_prefix("--rows=")?),
        [option, text] if option.as_str() == "--rows" => number(text.as_str()),
        _ => None,
    }
}

fn check(words: &[TextVal]) -> Option<Command>
    ensures { result ≡ check_of words.now }
{
    match words {
        [] => Some(Command::Check),
        _ => None,
    }
}

/// The command that the words are.
pub(crate) fn listed(words: &[TextVal]) -> Option<Command>
    ensures { result ≡ command_of words.now }
{
    let (word, others) = words.split_first()?;
    match word.as_str() {
        "run" => Some(Command::Run {
            trace: trace(others)?,
        }),
        "replay" => Some(Command::Replay {
            trace: trace(others)?,
        }),
        "check" => check(others),
        "drill" => Some(Command::Drill {
            rows: rows(others)?,
        }),
        _ => None,
    }
}
