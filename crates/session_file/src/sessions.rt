//! The sessions of a plan.
ghost use Rattle.std.specs.Prelude.{◌≡◌, [], ◌∷◌, ◌++◌, OnOk, OnErr};

use crate::plan::Named;
use crypto_model::OutOfMemory;
use std::marker::Model;

/// The sessions of a plan, in their order.
#[derive(Drop)]
pub struct Sessions {
    items: Vec<Named>,
}

impl Model for Sessions {
    ghost use Rattle.std.specs.Prelude.{List};
    ghost use Rattle.session_file.specs.declared.plan.Named.{Named};

    ghost Value = { List Named };

    ghost view = { λ list. list.items.items };
}

impl Sessions {
    pub fn new(items: Vec<Named>) -> Sessions
        ensures { result ≡ items.items }
    {
        Sessions { items }
    }

    pub fn items(&self) -> &[Named]
        ensures { result.now ≡ self.now }
    {
        self.items.as_slice()
    }

    pub(crate) fn push(&mut self, session: Named) -> Result<(), OutOfMemory>
        ensures ok { OnOk result (self.new ≡ self.old ++ session ∷ []) }
        ensures err { OnErr result (self.new ≡ self.old) }
    {
        self.items.push(session)?;
        Ok(())
    }
}
