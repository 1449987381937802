//! The session file: a text that names sessions, and rules that choose among them by the bytes of a packet.
//!
//! The text is cut into lines at each LF. A CR at the end of a line is dropped. The words of a line stand
//! between spaces and tabs. Lines without words, and those whose first word begins with `#`, say nothing.
//! The others are, in this order: `capcrypt 1`; `session` and `rule` lines in any mixture; one `default`
//! line.
//!
//! | Line | Form |
//! |---|---|
//! | session | `session NAME X` or `session NAME X + X` |
//! | rule | `rule NUMBER HEX NAME NUMBER` (offset, bytes, session, skip) or `rule NUMBER HEX pass` |
//! | default | `default NAME NUMBER` or `default pass` |
//!
//! | X | Words |
//! |---|---|
//! | CBC, CTR | `cbc` or `ctr`, then `encrypt` or `decrypt`, then `HEX HEX` (key, salt) |
//! | GCM | `gcm`, then `encrypt` or `decrypt`, then `HEX HEX NUMBER NUMBER` (key, salt, tag length, AAD length) |
//! | HMAC | `hmac-sha224`, `hmac-sha256`, `hmac-sha384` or `hmac-sha512`, then `generate` or `verify`, then `HEX NUMBER` (key, digest length) |
//!
//! A NUMBER has 1 to 7 decimal digits, a HEX a nonzero even number of hexadecimal digits of either case, and
//! a NAME 1 to 32 of the characters `a` to `z`, `0` to `9`, `_` and `-`, and isn't `pass`.
//!
//! The fault of a text is that of its first faulty line, of the first kind that holds:
//!
//! | Kind | The line |
//! |---|---|
//! | 1 | is the first and isn't `capcrypt 1`; or there is none, and the line is the number of lines and one |
//! | 2 | is of no form |
//! | 3, 4 | has a word that is no NUMBER, no HEX |
//! | 5 | names its session by no NAME, or as an earlier one |
//! | 6 | chooses a session that isn't above |
//! | 7 | has a salt that isn't 4 bytes for CTR and GCM and 8 for CBC, or transforms that make no session |
//! | 8 | has a skip that isn't the AAD length of a session with GCM, or isn't 0 for HMAC alone |
//! | 9 | is the 1,025th session or rule, or a rule with more than 64 bytes |
//! | 10 | stands behind the `default` line; or there is no such line, and the line is the number of lines and one |
//!
//! Contracts speak of texts by these words of `specs`:
//!
//! - `plan_of` of `Plan`: what a text says, its plan or the line and the kind of its fault. It is a
//!   function, so each text has exactly one of the two;
//! - `spelling` of `Spelling`: the text that [`print`] writes. By the law [`read_again`] it says the plan;
//! - `GivesPlan` of `View`: [`parse`] answers what `plan_of` says, or that memory was wanting;
//! - `IsSound` of `Sound`: what holds of each plan that [`parse`] answers. The transforms of each session make
//!   a session, whose salt has the bytes that they take together; there are at most 1,024 sessions; and each
//!   choice names one of them, which takes its skip.
//!
//! The proved test `a_plan_is_printed_and_read` is a short caller.
#![tactic(auto)]

mod draft;
mod form;
mod laws;
mod lists;
mod part;
mod plan;
mod printing;
mod reading;
mod refused;
mod rules;
mod sessions;
mod text;
mod value;
mod xforms;

pub use laws::read_again;
pub use lists::{Name, Pattern, Salt};
pub use plan::{Choice, Named, Plan, Rule};
pub use printing::print;
pub use reading::parse;
pub use refused::ParseRefused;
pub use rules::Rules;
pub use sessions::Sessions;
pub use xforms::Xforms;

#[cfg(test)]
mod tests;
