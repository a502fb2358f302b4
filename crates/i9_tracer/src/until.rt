//! Running a machine until a stop holds.
ghost use Rattle.std.specs.Prelude.{◌≡◌, List, Some, None};
ghost use Rattle.i9_model.specs.Given.{Given};
ghost use Rattle.i9_model.specs.declared.run.End.{End};
ghost use Rattle.i9_course.specs.Course.{Item};
ghost use Rattle.i9_machine.specs.InRun.{IsInRun};
ghost use Rattle.i9_machine.specs.StandsFor.{StandsFor, Follows, AnswersAgain};
ghost use Rattle.i9_machine.specs.Step.{steps_left};
ghost use Rattle.i9_tracer.specs.Until.{RunsUntil, history};
ghost use Rattle.i9_model.specs.Run.{Finish};

use crate::stop::{Stop, ViewTest};
use i9_machine::{Line, Machine, Turn};
use i9_model::View;
use i9_schedule::Schedule;

/// Goes on until the first instruction issued in this call after which the stop holds of the view, and answers that
/// instruction; or until the end, or want of memory. `On` is never answered. All that issues is done, and its lines
/// are appended to `out`; no turn is passed behind the instruction that is answered, so the machine stands at the turn
/// at which that issued. Where memory is refused the steps before are done, and the machine stands between two of
/// them. The schedule is the one of the run, as `Machine::advance` has it. Once an end was answered, each call answers
/// it again and changes nothing.
///
/// The view at which the machine stands when this is called is not asked about, and no more is that behind an event or
/// an entry. Such a stop is this project's own.
pub fn run_until<F: Fn(&View) -> bool + ViewTest>(
    m: &mut Machine,
    plan: &mut Schedule,
    out: &mut Vec<Line>,
    s: &Stop<F>,
) -> Turn
    requires stands { IsInRun m.old plan.old }
    ensures next { (g : Given) (h : List Item) → StandsFor g h None m.old → Follows g h plan.old
        → RunsUntil (F.ViewTest.allows s.now) (history g h) result m.new plan.new out.old.items out.new.items }
    ensures again { (g : Given) (h : List Item) (f : Finish) → StandsFor g h (Some f) m.old
        → AnswersAgain f result m.old m.new out.old.items out.new.items × (plan.new ≡ plan.old) }
{
    'steps: loop {
        match m.proceed(plan, out) {
            Turn::On => {}
            Turn::Issued(issued) => {
                if s.holds(&m.view()) {
                    return Turn::Issued(issued);
                }
            }
            Turn::End(e) => return Turn::End(e),
            Turn::Memory => return Turn::Memory,
        }
    }
}
