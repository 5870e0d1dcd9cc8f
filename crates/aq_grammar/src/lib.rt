//! The grammar of scripts: what a rule is, the rules of every form, and how a rule is read from left to right.
//! The rules are definitions, in `specs/`. The code reads single tokens, and forms one after the other.
#![tactic(auto)]

mod fault;
mod listing;
mod naming;
mod place;
mod prefixes;
mod refusal;
mod refused;
mod scope;
mod sections;
mod terminals;

pub use fault::ReadFault;
pub use listing::{Form, listed};
pub use naming::{column_list, names};
pub use place::{RefusedPlace, refused_place};
pub use prefixes::{behind, nots, signs};
pub use refusal::{
    refuse_behind_insert, refuse_behind_items, refuse_behind_key, refuse_behind_reference,
    refuse_in_code, refuse_joins, refuse_no_wait, refuse_not_after, refuse_not_valid,
    refuse_other_constraints, refuse_other_items, refuse_partial_match, refuse_returning,
    refuse_serializable, refuse_update_list,
};
pub use refused::{naming_fault, passes_limit, unsupported};
pub use scope::Scope;
pub use sections::{is_session_word, refuse_in_session, refuse_in_setup};
pub use terminals::{
    Read, are_words, count, heading, is_heading, is_literal, is_name, is_name_of, is_number,
    is_one_of, is_one_of_signs, is_plain_name, is_symbol, is_word, literal, message, name,
    name_but, name_of, number, plain_name, public_name, says, sign, state_code, word,
};
