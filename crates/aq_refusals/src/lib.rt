//! Why a statement is refused: the faults of statements and of setups, with their codes and texts
//! (PostgreSQL manual, appendix "PostgreSQL Error Codes"), and what a call tells that looks for them.
#![tactic(auto)]

mod fault;
mod refusals;

pub use fault::CatFault;
pub use refusals::{
    assigned_twice, column_twice, constraint_exists, few_values, function_exists, long_name,
    many_primary_keys, many_values, native_misused, no_boolean, no_column, no_constraint,
    no_function, no_key_column, no_negation, no_new_table, no_old_or_new, no_old_table,
    no_operator, no_primary_key, no_relation, no_such_key, no_target, not_deferrable, over_limit,
    relation_exists, transition_columns, transition_events, trigger_exists, trigger_reserved,
    unequal_columns, unequal_kinds, unequal_rows, wrong_default, wrong_value,
};
