//! That printing and reading agree.
ghost use Rattle.std.specs.Prelude.{◌≡◌, Ok, List, ℕ};
ghost use Rattle.session_file.specs.declared.plan.Plan.{Plan};
ghost use Rattle.session_file.specs.Plan.{plan_of};
ghost use Rattle.session_file.specs.Spelling.{spelling};

/// The text that [`print`](crate::print) writes of a plan says this plan, if any text does. So does the
/// text of every plan that [`parse`](crate::parse) answers.
pub fn read_again()
    ensures { (text : List ℕ) (plan : Plan) → plan_of text ≡ Ok plan → plan_of (spelling plan) ≡ Ok plan }
{}
