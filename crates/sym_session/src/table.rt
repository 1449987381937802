//! A table of sessions.
ghost use Rattle.std.specs.Prelude.{◌≡◌, ◌==◌, ◌≤◌, ◌↔◌, [], ◌∷◌, ◌++◌, length, IfOk, IfErr, OnErr, IsErr, slice_get, option_copied};

use crate::session::Session;
use crypto_model::{OutOfMemory, SessId};
use std::alloc::Global;
use std::marker::Model;

const MAX_SESSIONS: usize = 1024;

/// The 1,025th session, handed back.
#[derive(Drop)]
pub struct TableFull(pub Session);

/// At most 1,024 sessions, whose numbers count from 0.
#[derive(Drop)]
pub struct SessionTable {
    sessions: Vec<Session>,
}

impl Model for SessionTable {
    ghost use Rattle.std.specs.Prelude.{List, ◌≤◌, vec_len, vec_capacity};
    ghost use Rattle.crypto_model.specs.Process.{Transform};

    ghost Value = { List (List Transform) };

    ghost view = { λ t. t.sessions.items };

    ghost invariant = { λ t. (vec_len t.sessions ≤ 1024) × (1024 ≤ vec_capacity t.sessions) };
}

impl SessionTable {
    /// Reserves places for 1,024 sessions.
    pub fn new(alloc: Global) -> Result<SessionTable, OutOfMemory>
        ensures { IfOk result (λ t. t ≡ []) }
    {
        Ok(SessionTable {
            sessions: Vec::with_capacity(alloc, MAX_SESSIONS)?,
        })
    }

    /// Adds a session and answers its number: 0, 1, 2 and so on. Takes no memory.
    pub fn add(&mut self, s: Session) -> Result<SessId, TableFull>
        ensures number { IfOk result (λ id. id.0 ≡ length self.old) }
        ensures added { IfOk result (λ _. self.new ≡ self.old ++ s ∷ []) }
        ensures full { IsErr result ↔ (length self.old ≡ 1024) }
        ensures returned { IfErr result (λ e. e.0 ≡ s) }
        ensures unchanged { OnErr result (self.new ≡ self.old) }
    {
        let number = self.sessions.len();
        if number == MAX_SESSIONS {
            return Err(TableFull(s));
        }
        match self.sessions.push(s) {
            Ok(()) => Ok(SessId(number as u32)),
            Err(_) => unreachable!(),
        }
    }

    /// The session of this number.
    pub fn get(&self, id: SessId) -> Option<&Session>
        ensures { option_copied result ≡ slice_get self.now id.0 }
    {
        self.sessions.as_slice().get(id.0 as usize)
    }

    pub(crate) fn sessions(&self) -> &[Session]
        ensures { result.now ≡ self.now }
    {
        self.sessions.as_slice()
    }

    /// How many sessions there are.
    pub fn len(&self) -> usize
        ensures count { result ≡ length self.now }
        ensures most { result ≤ 1024 }
    {
        self.sessions.len()
    }

    /// Whether there is none.
    pub fn is_empty(&self) -> bool
        ensures { result ≡ (length self.now == 0) }
    {
        self.sessions.is_empty()
    }
}
