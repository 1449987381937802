//! How many packets were written, and what became of them.
ghost use Rattle.std.specs.Prelude.{◌≡◌, ◌<◌, ◌^◌, [], ◌∷◌, ◌++◌, List, length};
ghost use Rattle.packet_plan.specs.Answered.{Answered};
ghost use Rattle.packet_flow.specs.Counts.{counts_of, is_success, is_auth_failed, is_invalid_args, is_short, is_passed};

use crypto_model::Status;
use packet_plan::Fate;

/// How many packets were written, and what became of them.
#[derive(Clone, Copy, Debug, PartialEq, Eq)]
pub struct Counts {
    pub packets: u64,
    pub success: u64,
    pub auth_failed: u64,
    pub invalid_args: u64,
    pub short: u64,
    pub passed: u64,
}

impl Counts {
    pub fn new() -> Counts
        ensures { result ≡ counts_of [] }
    {
        Counts {
            packets: 0,
            success: 0,
            auth_failed: 0,
            invalid_args: 0,
            short: 0,
            passed: 0,
        }
    }

    // One packet more.
    pub(crate) fn add(&mut self, fate: Fate)
        requires { (answers : List Answered) × (self.old ≡ counts_of answers) × (length answers < 2 ^ 32) }
        ensures { (answers : List Answered) (a : Answered) → self.old ≡ counts_of answers → a.fate ≡ fate → self.new ≡ counts_of (answers ++ a ∷ []) }
    {
        self.packets += 1;
        self.success += u64::from(matches!(fate, Fate::Worked(Status::Success)));
        self.auth_failed += u64::from(matches!(fate, Fate::Worked(Status::AuthFailed)));
        self.invalid_args += u64::from(matches!(fate, Fate::Worked(Status::InvalidArgs)));
        self.short += u64::from(matches!(fate, Fate::Short));
        self.passed += u64::from(matches!(fate, Fate::Passed));
    }
}
