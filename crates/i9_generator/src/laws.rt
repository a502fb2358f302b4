//! Laws of made jobs, as the contracts of calls that do nothing.

ghost use Rattle.std.specs.Prelude.{ℕ};
ghost use Rattle.i9_generator.specs.Accepted.{HasAssembly, HasPlan};

/// A made job is accepted, whatever the number: the source that is made from it assembles without a fault, and the
/// schedule that is made from it is read as a plan whose events stand at counts.
#[tactic(auto, using(crate::proofs::MadeSource::made_source, crate::proofs::MadeSchedule::made_schedule))]
pub fn made_jobs_are_accepted()
    ensures source { (number : ℕ) → HasAssembly number }
    ensures schedule { (number : ℕ) → HasPlan number }
{}
