//! Tests of public calls of the libraries. They stand in a crate of their own, since a library that has tests is proved twice; and as
//! tables, which are texts, since each function of a test is proved and a row is not.
#![tactic(auto)]

#[cfg(test)]
mod binding;
#[cfg(test)]
mod causes;
#[cfg(test)]
mod grammar;
#[cfg(test)]
mod lex;
#[cfg(test)]
mod print;
#[cfg(test)]
mod script;
#[cfg(test)]
mod table;
#[cfg(test)]
mod values;
#[cfg(test)]
mod words;
