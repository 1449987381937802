//! A plan of which not all lines are read yet.
ghost use Rattle.std.specs.Prelude.{◌≡◌, ◌≤◌, Some, IfOk, IsTrue, length, position};
ghost use Rattle.std.specs.List.{list_all, list_any};
ghost use Rattle.session_file.specs.Form.{SessionWords, RuleWords, DefaultWords};
ghost use Rattle.session_file.specs.View.{ChoiceRead, Reads, chain_view, form_view, target_view, texts};
ghost use Rattle.session_file.specs.Value.{is_number};
ghost use Rattle.session_file.specs.Fault.{has_name, takes_skip, target_numbers};
ghost use Rattle.session_file.specs.Plan.{is_header, is_significant, no_lines, read_form, read_line, read_words};

use crate::form::{Form, Target, form_of};
use crate::lists::{Name, Pattern, Salt};
use crate::part::Chain;
use crate::plan::{Choice, Named, Rule};
use crate::refused::{Kind, LineRefused};
use crate::rules::Rules;
use crate::sessions::Sessions;
use crate::text::words;
use crate::value::{hex_bytes, is, is_hex, is_name, is_number, number};
use crate::xforms::Xforms;
use crypto_model::{OutOfMemory, SessId};
use std::alloc::Global;
use sym_session::Xform;

const MAX_SESSIONS: usize = 1024;

const MAX_RULES: usize = 1024;

const MAX_PATTERN: usize = 64;

/// What the lines above say. `begun` is whether the first of them was there.
#[derive(Drop)]
pub(crate) struct Draft {
    pub(crate) begun: bool,
    pub(crate) sessions: Sessions,
    pub(crate) rules: Rules,
    pub(crate) otherwise: Option<Choice>,
}

impl Named {
    fn has_name(&self, name: &[u8]) -> bool
        ensures { result ≡ has_name name.now self.now }
    {
        self.name.items() == name
    }
}

fn has_session(sessions: &[Named], name: &[u8]) -> bool
    ensures { result ≡ list_any (has_name name.now) sessions.now }
{
    sessions.iter().any(|session| session.has_name(name))
}

fn place_of(sessions: &[Named], name: &[u8]) -> Option<usize>
    ensures { result ≡ position (has_name name.now) sessions.now }
{
    sessions.iter().position(|session| session.has_name(name))
}

fn copied(alloc: Global, bytes: &[u8]) -> Result<Vec<u8>, OutOfMemory>
    ensures { IfOk result (λ v. v.items ≡ bytes.now) }
{
    let copied = bytes.to_vec(alloc)?;
    Ok(copied)
}

fn takes_skip(skip: u32, xforms: &[Xform]) -> bool
    ensures { result ≡ takes_skip skip xforms.now }
{
    match xforms {
        [Xform::Aead { aad_len, .. }] => skip as usize == *aad_len,
        [Xform::Auth { .. }] => skip == 0,
        _ => true,
    }
}

impl Target<'_> {
    fn has_numbers(&self) -> bool
        ensures { result ≡ list_all is_number (target_numbers (target_view self.now)) }
    {
        match self {
            Target::Pass => true,
            Target::Use { skip, .. } => is_number(skip),
        }
    }

    // The choice that it names among the sessions above.
    fn choice(&self, sessions: &[Named]) -> Result<Choice, Kind>
        requires few { length sessions.now ≤ 1024 }
        requires number { IsTrue (list_all is_number (target_numbers (target_view self.now))) }
        ensures { ChoiceRead sessions.now (target_view self.now) result }
    {
        match self {
            Target::Pass => Ok(Choice::Pass),
            Target::Use { name, skip } => {
                let Some(place) = place_of(sessions, name) else {
                    return Err(Kind::Session);
                };
                let skip = number(skip);
                if !takes_skip(skip, sessions[place].xforms.items()) {
                    return Err(Kind::Skip);
                }
                Ok(Choice::Use {
                    session: SessId(place as u32),
                    skip,
                })
            }
        }
    }
}

fn is_header(words: &[&[u8]]) -> bool
    ensures { result ≡ is_header (texts words.now) }
{
    match words {
        [name, version] => is(name, "capcrypt") && is(version, "1"),
        _ => false,
    }
}

fn is_significant(words: &[&[u8]]) -> bool
    ensures { result ≡ is_significant (texts words.now) }
{
    !matches!(words, [] | [[b'#', ..], ..])
}

impl Draft {
    // No line is read yet.
    pub(crate) fn new(alloc: Global) -> Draft
        ensures { result ≡ no_lines }
    {
        Draft {
            begun: false,
            sessions: Sessions::new(Vec::new(alloc)),
            rules: Rules::new(Vec::new(alloc)),
            otherwise: None,
        }
    }

    fn add_session(&mut self, alloc: Global, name: &[u8], chain: &Chain) -> Result<(), LineRefused>
        requires { length self.old.sessions ≤ 1024 }
        ensures reads { Reads self.new result (read_form self.old (Some (SessionWords name.now (chain_view chain.now)))) }
        ensures few { length self.new.sessions ≤ 1024 }
    {
        if !chain.has_numbers() {
            return Err(LineRefused::Fault(Kind::Number));
        }
        if !chain.has_hexes() {
            return Err(LineRefused::Fault(Kind::Hex));
        }
        if !is_name(name) || has_session(self.sessions.items(), name) {
            return Err(LineRefused::Fault(Kind::Name));
        }
        if !chain.has_good_salts() {
            return Err(LineRefused::Fault(Kind::Transforms));
        }
        let Some(xforms) = chain.xforms(alloc)? else {
            return Err(LineRefused::Fault(Kind::Transforms));
        };
        if MAX_SESSIONS <= self.sessions.items().len() {
            return Err(LineRefused::Fault(Kind::Limit));
        }
        let session = Named {
            name: Name::new(copied(alloc, name)?),
            xforms: Xforms::new(xforms),
            salt: Salt::new(chain.salt(alloc)?),
        };
        self.sessions.push(session)?;
        Ok(())
    }

    fn add_rule(
        &mut self,
        alloc: Global,
        offset: &[u8],
        bytes: &[u8],
        target: &Target,
    ) -> Result<(), LineRefused>
        requires { length self.old.sessions ≤ 1024 }
        ensures reads { Reads self.new result (read_form self.old (Some (RuleWords offset.now bytes.now (target_view target.now)))) }
        ensures few { length self.new.sessions ≤ 1024 }
    {
        if !is_number(offset) || !target.has_numbers() {
            return Err(LineRefused::Fault(Kind::Number));
        }
        if !is_hex(bytes) {
            return Err(LineRefused::Fault(Kind::Hex));
        }
        let choice = match target.choice(self.sessions.items()) {
            Ok(choice) => choice,
            Err(kind) => return Err(LineRefused::Fault(kind)),
        };
        let bytes = hex_bytes(alloc, bytes)?;
        if MAX_RULES <= self.rules.items().len() || MAX_PATTERN < bytes.len() {
            return Err(LineRefused::Fault(Kind::Limit));
        }
        let rule = Rule {
            offset: number(offset),
            bytes: Pattern::new(bytes),
            choice,
        };
        self.rules.push(rule)?;
        Ok(())
    }

    fn set_default(&mut self, target: &Target) -> Result<(), LineRefused>
        requires { length self.old.sessions ≤ 1024 }
        ensures reads { Reads self.new result (read_form self.old (Some (DefaultWords (target_view target.now)))) }
        ensures few { length self.new.sessions ≤ 1024 }
    {
        if !target.has_numbers() {
            return Err(LineRefused::Fault(Kind::Number));
        }
        match target.choice(self.sessions.items()) {
            Ok(choice) => {
                self.otherwise = Some(choice);
                Ok(())
            }
            Err(kind) => Err(LineRefused::Fault(kind)),
        }
    }

    fn add_form(&mut self, alloc: Global, form: &Form) -> Result<(), LineRefused>
        requires { length self.old.sessions ≤ 1024 }
        ensures reads { Reads self.new result (read_form self.old (Some (form_view form.now))) }
        ensures few { length self.new.sessions ≤ 1024 }
    {
        match form {
            Form::Session { name, chain } => self.add_session(alloc, name, chain),
            Form::Rule {
                offset,
                bytes,
                target,
            } => self.add_rule(alloc, offset, bytes, target),
            Form::Default { target } => self.set_default(target),
        }
    }

    #[tactic(auto, unfolding(crate::specs::Plan::read_words))]
    fn add_words(&mut self, alloc: Global, words: &[&[u8]]) -> Result<(), LineRefused>
        requires { length self.old.sessions ≤ 1024 }
        ensures reads { Reads self.new result (read_words self.old (texts words.now)) }
        ensures few { length self.new.sessions ≤ 1024 }
    {
        if self.otherwise.is_some() {
            return Err(LineRefused::Fault(Kind::End));
        }
        if self.begun {
            return match form_of(words) {
                Some(form) => self.add_form(alloc, &form),
                None => Err(LineRefused::Fault(Kind::Form)),
            };
        }
        if is_header(words) {
            self.begun = true;
            return Ok(());
        }
        Err(LineRefused::Fault(Kind::Header))
    }

    // Takes up what a line says, if anything.
    #[tactic(auto, unfolding(crate::specs::Plan::read_line))]
    pub(crate) fn add_line(&mut self, alloc: Global, line: &[u8]) -> Result<(), LineRefused>
        requires { length self.old.sessions ≤ 1024 }
        ensures reads { Reads self.new result (read_line self.old line.now) }
        ensures few { length self.new.sessions ≤ 1024 }
    {
        let words = words(alloc, line)?;
        if is_significant(words.as_slice()) {
            self.add_words(alloc, words.as_slice())
        } else {
            Ok(())
        }
    }
}
