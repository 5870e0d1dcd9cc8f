//! What a foreign key refers to, and what becomes of its rows (PostgreSQL manual, page CREATE TABLE, REFERENCES).

ghost use Rattle.std.specs.Prelude.{◌≡◌, None, codes};
ghost use Rattle.aq_grammar.specs.Nonterminals.{reads};
ghost use Rattle.aq_grammar.specs.Steps.{Gives};
ghost use Rattle.aq_grammar.specs.Tables.{matching, setting, plain_action, deletion, update_setting, action, action_on, actions, actions_of, target, reference_of};
ghost use Rattle.aq_base.specs.declared.constraint.Action.TheVariants.{NoAction};
ghost use Rattle.aq_parse_tables.specs.Targets.{shown};

use aq_base::{Action, Decl, List, Match, Reference, TextVal};
use aq_grammar::{
    Read, column_list, is_word, public_name, refuse_partial_match, refuse_update_list, says, word,
};
use aq_lex::Lexed;
use std::alloc::Global;

/// A reference without its timing.
#[derive(Drop)]
pub(crate) struct Untimed {
    table: TextVal,
    columns: Option<List<TextVal>>,
    matching: Match,
    on_delete: Action,
    set_columns: Option<List<TextVal>>,
    on_update: Action,
}

impl Untimed {
    /// The reference that is checked then.
    pub(crate) fn checked(self, timing: Decl) -> Reference
        ensures { result ≡ reference_of (shown self) timing }
    {
        Reference {
            table: self.table,
            columns: self.columns,
            matching: self.matching,
            on_delete: self.on_delete,
            set_columns: self.set_columns,
            on_update: self.on_update,
            timing,
        }
    }
}

/// MATCH SIMPLE, MATCH FULL, or neither.
#[tactic(auto, unfolding(aq_grammar::specs::Tables::matching, aq_grammar::specs::Steps::RefusesSo))]
fn matching<'a>(alloc: Global, tokens: &Lexed<'a>) -> Read<'a, Match>
    ensures { Gives (λ x. x) result (reads matching tokens.now) }
{
    refuse_partial_match(alloc, tokens)?;
    if !is_word(tokens, b"match") {
        return Ok((Match::Simple, tokens.copied()));
    }
    let ((), rest) = word(tokens, b"match")?;
    if is_word(&rest, b"simple") {
        says(&rest, b"simple", Match::Simple)
    } else {
        says(&rest, b"full", Match::Full)
    }
}

/// SET NULL or SET DEFAULT.
#[tactic(auto, unfolding(aq_grammar::specs::Tables::setting))]
fn setting<'a>(tokens: &Lexed<'a>) -> Read<'a, Action>
    ensures { Gives (λ x. x) result (reads setting tokens.now) }
{
    let ((), rest) = word(tokens, b"set")?;
    if is_word(&rest, b"null") {
        says(&rest, b"null", Action::SetNull)
    } else {
        says(&rest, b"default", Action::SetDefault)
    }
}

/// An action that sets no column.
#[tactic(auto, unfolding(aq_grammar::specs::Tables::plain_action))]
fn plain_action<'a>(tokens: &Lexed<'a>) -> Read<'a, Action>
    ensures { Gives (λ x. x) result (reads plain_action tokens.now) }
{
    if is_word(tokens, b"no") {
        let ((), rest) = word(tokens, b"no")?;
        says(&rest, b"action", Action::NoAction)
    } else if is_word(tokens, b"restrict") {
        says(tokens, b"restrict", Action::Restrict)
    } else {
        says(tokens, b"cascade", Action::Cascade)
    }
}

/// What is done with child rows when a row is deleted, and the list of the columns that are set.
#[tactic(auto, unfolding(aq_grammar::specs::Tables::deletion))]
fn deletion<'a>(alloc: Global, tokens: &Lexed<'a>) -> Read<'a, (Action, Option<List<TextVal>>)>
    ensures { Gives (λ x. x) result (reads deletion tokens.now) }
{
    if !is_word(tokens, b"set") {
        let (action, rest) = plain_action(tokens)?;
        return Ok(((action, None), rest));
    }
    let (action, rest) = setting(tokens)?;
    let (columns, rest) = column_list(alloc, &rest)?;
    Ok(((action, columns), rest))
}

/// SET NULL or SET DEFAULT, behind which no list stands.
#[tactic(auto, unfolding(aq_grammar::specs::Tables::update_setting, aq_grammar::specs::Steps::RefusesSo))]
fn update_setting<'a>(alloc: Global, tokens: &Lexed<'a>) -> Read<'a, Action>
    ensures { Gives (λ x. x) result (reads update_setting tokens.now) }
{
    let ((), rest) = word(tokens, b"set")?;
    if is_word(&rest, b"null") {
        let (action, rest) = says(&rest, b"null", Action::SetNull)?;
        refuse_update_list(
            alloc,
            &rest,
            "a column list with SET NULL is only supported for ON DELETE actions",
        )?;
        Ok((action, rest))
    } else {
        let (action, rest) = says(&rest, b"default", Action::SetDefault)?;
        refuse_update_list(
            alloc,
            &rest,
            "a column list with SET DEFAULT is only supported for ON DELETE actions",
        )?;
        Ok((action, rest))
    }
}

/// What is done with child rows when a key is changed.
#[tactic(auto, unfolding(aq_grammar::specs::Tables::action))]
fn action<'a>(alloc: Global, tokens: &Lexed<'a>) -> Read<'a, Action>
    ensures { Gives (λ x. x) result (reads action tokens.now) }
{
    if is_word(tokens, b"set") {
        update_setting(alloc, tokens)
    } else {
        plain_action(tokens)
    }
}

/// ON UPDATE behind ON DELETE, where it is given.
fn on_update<'a>(alloc: Global, tokens: &Lexed<'a>) -> Read<'a, Action>
    ensures { Gives (λ x. x) result (reads (action_on (codes "update") action NoAction) tokens.now) }
{
    if !is_word(tokens, b"on") {
        return Ok((Action::NoAction, tokens.copied()));
    }
    let ((), rest) = word(tokens, b"on")?;
    let ((), rest) = word(&rest, b"update")?;
    action(alloc, &rest)
}

/// ON DELETE behind ON UPDATE, where it is given.
fn on_delete<'a>(alloc: Global, tokens: &Lexed<'a>) -> Read<'a, (Action, Option<List<TextVal>>)>
    ensures { Gives (λ x. x) result (reads (action_on (codes "delete") deletion (NoAction, None)) tokens.now) }
{
    if !is_word(tokens, b"on") {
        return Ok(((Action::NoAction, None), tokens.copied()));
    }
    let ((), rest) = word(tokens, b"on")?;
    let ((), rest) = word(&rest, b"delete")?;
    deletion(alloc, &rest)
}

/// What is done on delete, and on update.
#[tactic(auto, unfolding(aq_grammar::specs::Tables::actions))]
fn actions<'a>(
    alloc: Global,
    tokens: &Lexed<'a>,
) -> Read<'a, ((Action, Option<List<TextVal>>), Action)>
    ensures { Gives (λ x. actions_of x.0 x.1) result (reads actions tokens.now) }
{
    if !is_word(tokens, b"on") {
        return Ok((
            ((Action::NoAction, None), Action::NoAction),
            tokens.copied(),
        ));
    }
    let ((), rest) = word(tokens, b"on")?;
    if is_word(&rest, b"delete") {
        let ((), rest) = word(&rest, b"delete")?;
        let (deleted, rest) = deletion(alloc, &rest)?;
        let (updated, rest) = on_update(alloc, &rest)?;
        Ok(((deleted, updated), rest))
    } else {
        let ((), rest) = word(&rest, b"update")?;
        let (updated, rest) = action(alloc, &rest)?;
        let (deleted, rest) = on_delete(alloc, &rest)?;
        Ok(((deleted, updated), rest))
    }
}

/// REFERENCES with all but the timing.
#[tactic(auto, unfolding(aq_grammar::specs::Tables::target))]
pub(crate) fn target<'a>(alloc: Global, tokens: &Lexed<'a>) -> Read<'a, Untimed>
    ensures { Gives shown result (reads target tokens.now) }
{
    let ((), rest) = word(tokens, b"references")?;
    let (table, rest) = public_name(alloc, &rest)?;
    let (columns, rest) = column_list(alloc, &rest)?;
    let (matching, rest) = matching(alloc, &rest)?;
    let (((on_delete, set_columns), on_update), rest) = actions(alloc, &rest)?;
    Ok((
        Untimed {
            table,
            columns,
            matching,
            on_delete,
            set_columns,
            on_update,
        },
        rest,
    ))
}
