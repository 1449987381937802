//! The transforms of a session.
ghost use Rattle.std.specs.Prelude.{◌≡◌};

use std::marker::Model;
use sym_session::Xform;

/// The transforms of a session, in the order in which they work.
#[derive(Drop)]
pub struct Xforms {
    items: Vec<Xform>,
}

impl Model for Xforms {
    ghost use Rattle.std.specs.Prelude.{List};
    ghost use Rattle.sym_session.specs.declared.xform.Xform.{Xform};

    ghost Value = { List Xform };

    ghost view = { λ list. list.items.items };
}

impl Xforms {
    pub fn new(items: Vec<Xform>) -> Xforms
        ensures { result ≡ items.items }
    {
        Xforms { items }
    }

    pub fn items(&self) -> &[Xform]
        ensures { result.now ≡ self.now }
    {
        self.items.as_slice()
    }
}
