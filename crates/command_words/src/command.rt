//! What the words ask for.
ghost use Rattle.std.specs.Prelude.{◌≡◌, IfOk, map, option_map, string_bytes};
ghost use Rattle.command_words.specs.Asked.{wanted, sessions_file};
ghost use Rattle.command_words.specs.Gives.{Gives, IsLegalCommand};

use crate::crypt::{Crypt, crypt_of};
use crate::forward::{Forward, forward_of};
use crate::generated::{Gen, gen_of};
use crate::quick::{Quick, quick_of};
use crate::refused::WordsRefused;
use crypto_model::OutOfMemory;
use std::alloc::Global;

// As many devices as any words may want.
const MAX_DEVICES: usize = 8;

/// What legal words ask for.
#[derive(Drop)]
pub enum Command<'a> {
    Quick(Quick),
    Crypt(Crypt<'a>),
    Forward(Forward<'a>),
    Gen(Gen),
}

/// What the words behind the program's name ask for, where so many devices are there.
#[tactic(auto, unfolding(crate::specs::Asked::wanted))]
pub fn command_of<'a>(
    alloc: Global,
    words: &'a [String],
    devices: usize,
) -> Result<Command<'a>, WordsRefused>
    ensures value { Gives result (wanted (map string_bytes words.entry.now) devices) }
    ensures legal { IfOk result IsLegalCommand }
{
    let [word, rest @ ..] = words else {
        return Err(WordsRefused::Usage);
    };
    if word.as_str() == "quick" {
        return match quick_of(rest) {
            Some(quick) => Ok(Command::Quick(quick)),
            None => Err(WordsRefused::Usage),
        };
    }
    if word.as_str() == "gen" {
        return match gen_of(rest, devices) {
            Some(generated) => Ok(Command::Gen(generated)),
            None => Err(WordsRefused::Usage),
        };
    }
    if word.as_str() == "crypt" {
        let crypt = crypt_of(alloc, words, devices)?;
        return Ok(Command::Crypt(crypt));
    }
    if word.as_str() == "forward" {
        let forward = forward_of(alloc, words, devices)?;
        return Ok(Command::Forward(forward));
    }
    Err(WordsRefused::Usage)
}

/// The file of the sessions, where words that are legal for eight devices name one.
pub fn sessions_path(alloc: Global, words: &[String]) -> Result<Option<String>, OutOfMemory>
    ensures { IfOk result (λ path. option_map string_bytes path ≡ sessions_file (wanted (map string_bytes words.now) 8)) }
{
    match command_of(alloc, words, MAX_DEVICES) {
        Ok(Command::Crypt(Crypt { sessions, .. }) | Command::Forward(Forward { sessions, .. })) => {
            let path = String::from_str(alloc, sessions)?;
            Ok(Some(path))
        }
        Ok(Command::Quick(_) | Command::Gen(_)) => Ok(None),
        Err(WordsRefused::OutOfMemory) => Err(OutOfMemory),
        Err(_) => Ok(None),
    }
}
