//! Tests of what neither a contract nor a row of `wat_golden` covers. The tests are proved too.
//!
//! - Runs of the program: over readers and writers that fail, and for texts that are nested deeply,
//!   cut off or not UTF-8.
//! - Calls: those that allocate, lookups, calls that make a value, and calls that lend a part of
//!   one.
//! - Types of a user's own.
//! - What is printed of values that a program made.
//! - Short texts that are formatted, that have float literals, or that have several errors.
//! - The public names: `stable_names` and `stable_code` use each of them.
#![tactic(auto)]

#[cfg(test)]
mod answers;
#[cfg(test)]
mod arena;
#[cfg(test)]
mod cut_short;
#[cfg(test)]
mod faults;
#[cfg(test)]
mod formats;
#[cfg(test)]
mod invoke;
#[cfg(test)]
mod lent;
#[cfg(test)]
mod lookahead;
#[cfg(test)]
mod made;
#[cfg(test)]
mod masked;
#[cfg(test)]
mod module;
#[cfg(test)]
mod opcodes;
#[cfg(test)]
mod parts;
#[cfg(test)]
mod path;
#[cfg(test)]
mod printed;
#[cfg(test)]
mod refused;
#[cfg(test)]
mod script;
#[cfg(test)]
mod stable_code;
#[cfg(test)]
mod stable_names;
#[cfg(test)]
mod streams;
#[cfg(test)]
mod unused;
#[cfg(test)]
mod words;
