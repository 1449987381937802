//! The words behind the program's name.
//!
//! | Words | Command |
//! |---|---|
//! | `quick KEY SALT` | three words. KEY has 32, 48 or 64 hexadecimal digits of either case, and SALT has 8 |
//! | `crypt --vdev TEXT --sessions FILE` | the options in any order, each once, and perhaps `--burst N` among them |
//! | `forward --vdev TEXT --sessions FILE` | the options in any order, each once |
//! | `gen N NUMBER` | three words. N has 1 to 7 decimal digits, from 1 to 1,000,000, and NUMBER 1 to 20, below 2^64. There are two devices |
//!
//! The words of `crypt` and of `forward` are read with `clap` as one simple command of that name, whose options take
//! one value each: `--sessions f` and `--sessions=f` are both usual, and `--sessions=` names a file of no letters. Three
//! rules come on top, in this order:
//!
//! 1. N has 1 to 10 decimal digits, with a value from 1 to 256. It is 32 where `--burst` is absent. `forward` has no
//!    such option;
//! 2. TEXT is a scheduler text, as `sched_core` reads it;
//! 3. its mode is another than `multi-core`, and it names no more workers than there are devices.
//!
//! All other words are a fault of usage, help too, but a faulty TEXT is one of its own, told by its place.
//!
//! Contracts speak of words by these definitions of `specs`:
//!
//! - `wanted` of `Asked`: what words ask for, or their fault. It is a function, so they have exactly one;
//! - `values_of` of `Options`: the values in words that a simple command takes, which `crypt_app` and `forward_app`
//!   describe;
//! - `Gives` of `Gives`: [`command_of`] answers what `wanted` says, or that memory was wanting.
//!
//! The proved test `the_words_of_crypt_are_read` is a short caller.
#![tactic(auto)]

mod command;
mod crypt;
mod forward;
mod generated;
mod numeral;
mod options;
mod quick;
mod refused;
mod scheduler;

pub use command::{Command, command_of, sessions_path};
pub use crypt::Crypt;
pub use forward::Forward;
pub use generated::Gen;
pub use quick::Quick;
pub use refused::WordsRefused;

#[cfg(test)]
mod tests;
