//! Tests of the assembler's language: lines, expressions and macros.
#![tactic(auto)]

#[cfg(test)]
mod lex;
#[cfg(test)]
mod macros;
#[cfg(test)]
mod nested;
