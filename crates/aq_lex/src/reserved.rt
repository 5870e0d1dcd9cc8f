//! Words that are no names.

ghost use Rattle.std.specs.Prelude.{◌≡◌};
ghost use Rattle.std.specs.List.{list_any};
ghost use Rattle.aq_base.specs.Names.{is_reserved, same_text};

/// Words that are no names (PostgreSQL manual, appendix "SQL Key Words").
pub(crate) const RESERVED_WORDS: [&str; 67] = [
    "add",
    "after",
    "all",
    "alter",
    "and",
    "as",
    "begin",
    "by",
    "cascade",
    "check",
    "commit",
    "constraint",
    "constraints",
    "create",
    "default",
    "deferrable",
    "deferred",
    "delete",
    "distinct",
    "each",
    "else",
    "elsif",
    "end",
    "execute",
    "false",
    "for",
    "foreign",
    "from",
    "function",
    "if",
    "immediate",
    "initially",
    "insert",
    "into",
    "is",
    "key",
    "match",
    "new",
    "not",
    "null",
    "old",
    "on",
    "only",
    "or",
    "primary",
    "raise",
    "references",
    "referencing",
    "release",
    "restrict",
    "return",
    "rollback",
    "row",
    "savepoint",
    "select",
    "set",
    "table",
    "tg_op",
    "then",
    "to",
    "trigger",
    "true",
    "unique",
    "update",
    "values",
    "when",
    "where",
];

fn is_one_of(word: &[u8], words: &[&str]) -> bool
    ensures { result ≡ list_any (λ other. same_text word.now other.now) words.now }
{
    words.iter().any(|other| word == other.as_bytes())
}

/// Whether a word, in lower case, is no name.
pub fn is_reserved(word: &[u8]) -> bool
    ensures { result ≡ is_reserved word.now }
{
    is_one_of(word, &RESERVED_WORDS)
}
