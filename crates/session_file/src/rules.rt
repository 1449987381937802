//! The rules of a plan.
ghost use Rattle.std.specs.Prelude.{◌≡◌, [], ◌∷◌, ◌++◌, OnOk, OnErr};

use crate::plan::Rule;
use crypto_model::OutOfMemory;
use std::marker::Model;

/// The rules of a plan, in their order.
#[derive(Drop)]
pub struct Rules {
    items: Vec<Rule>,
}

impl Model for Rules {
    ghost use Rattle.std.specs.Prelude.{List};
    ghost use Rattle.session_file.specs.declared.plan.Rule.{Rule};

    ghost Value = { List Rule };

    ghost view = { λ list. list.items.items };
}

impl Rules {
    pub fn new(items: Vec<Rule>) -> Rules
        ensures { result ≡ items.items }
    {
        Rules { items }
    }

    pub fn items(&self) -> &[Rule]
        ensures { result.now ≡ self.now }
    {
        self.items.as_slice()
    }

    pub(crate) fn push(&mut self, rule: Rule) -> Result<(), OutOfMemory>
        ensures ok { OnOk result (self.new ≡ self.old ++ rule ∷ []) }
        ensures err { OnErr result (self.new ≡ self.old) }
    {
        self.items.push(rule)?;
        Ok(())
    }
}
