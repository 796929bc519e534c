//! Rule A: each filled row names a task or an edge of the job, and each placed task is on a machine.
ghost use Rattle.std.specs.Prelude.{◌≡◌};
ghost use Rattle.marker.specs.Markings.{on};
ghost use Rattle.marker.specs.Verdicts.{rows_test};

use crate::marking::Marking;
use routes::Routes;

impl<R: Routes> Marking<'_, '_, R> {
    /// Whether a task's row is of no task of the job, or on no machine.
    fn row_stray(&self, t: usize) -> bool
        ensures { result ≡ on self.now rows_test 0 t }
    {
        self.marked.plan.task(t).is_some_and(|p| {
            t >= self.marked.job.task_count() || !self.marked.routes.network().is_machine(p.station)
        })
    }

    /// Whether a filled transfer row is of no edge of the job.
    fn transfer_stray(&self, i: usize) -> bool
        ensures { result ≡ on self.now rows_test 1 i }
    {
        self.marked.plan.start_count(i) != 0 && i >= self.marked.job.edge_count()
    }

    /// Rule A: 0 and a task, or 1 and an edge.
    pub(crate) fn rows_test(&self, x: usize, y: usize) -> bool
        ensures { result ≡ on self.now rows_test x y }
    {
        // The two numbers are those of the verdict: a type made of them would be matched at once.
        match x {
            0 => self.row_stray(y),
            1 => self.transfer_stray(y),
            _ => false,
        }
    }
}
