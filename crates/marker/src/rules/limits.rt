//! Rule D: each finish is at most the limit.
ghost use Rattle.std.specs.Prelude.{◌≡◌};
ghost use Rattle.marker.specs.Markings.{on};
ghost use Rattle.marker.specs.Verdicts.{limit_test};

use crate::marking::Marking;
use model::tick::LATEST_END;
use routes::Routes;

/// No task and no transfer finishes later.
const LIMIT: u64 = LATEST_END as u64;

impl<R: Routes> Marking<'_, '_, R> {
    /// Whether a task is done after the limit.
    fn task_late(&self, t: usize) -> bool
        ensures { result ≡ on self.now limit_test 0 t }
    {
        self.booking(t).is_some_and(|task| task.end() > LIMIT)
    }

    /// Whether a transfer is done after the limit on some link.
    fn transfer_late(&self, i: usize) -> bool
        ensures { result ≡ on self.now limit_test 1 i }
    {
        self.any_leg(i, |b| b.end() > LIMIT)
    }

    /// Rule D: 0 and a task, or 1 and an edge.
    pub(crate) fn limit_test(&self, x: usize, y: usize) -> bool
        ensures { result ≡ on self.now limit_test x y }
    {
        // The two numbers are those of the verdict: a type made of them would be matched at once.
        match x {
            0 => self.task_late(y),
            1 => self.transfer_late(y),
            _ => false,
        }
    }
}
