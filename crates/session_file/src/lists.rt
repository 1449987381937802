//! The lists of bytes of a plan, which contracts see as the lists of their items.
ghost use Rattle.std.specs.Prelude.{◌≡◌};

use std::marker::Model;

/// The name of a session.
#[derive(Drop)]
pub struct Name {
    items: Vec<u8>,
}

impl Model for Name {
    ghost use Rattle.std.specs.Prelude.{List, ℕ};

    ghost Value = { List ℕ };

    ghost view = { λ list. list.items.items };
}

impl Name {
    pub fn new(items: Vec<u8>) -> Name
        ensures { result ≡ items.items }
    {
        Name { items }
    }

    pub fn items(&self) -> &[u8]
        ensures { result.now ≡ self.now }
    {
        self.items.as_slice()
    }
}

/// The bytes with which a session's IVs begin, or from which they are made.
#[derive(Drop)]
pub struct Salt {
    items: Vec<u8>,
}

impl Model for Salt {
    ghost use Rattle.std.specs.Prelude.{List, ℕ};

    ghost Value = { List ℕ };

    ghost view = { λ list. list.items.items };
}

impl Salt {
    pub fn new(items: Vec<u8>) -> Salt
        ensures { result ≡ items.items }
    {
        Salt { items }
    }

    pub fn items(&self) -> &[u8]
        ensures { result.now ≡ self.now }
    {
        self.items.as_slice()
    }
}

/// The bytes that a rule looks for.
#[derive(Drop)]
pub struct Pattern {
    items: Vec<u8>,
}

impl Model for Pattern {
    ghost use Rattle.std.specs.Prelude.{List, ℕ};

    ghost Value = { List ℕ };

    ghost view = { λ list. list.items.items };
}

impl Pattern {
    pub fn new(items: Vec<u8>) -> Pattern
        ensures { result ≡ items.items }
    {
        Pattern { items }
    }

    pub fn items(&self) -> &[u8]
        ensures { result.now ≡ self.now }
    {
        self.items.as_slice()
    }
}
