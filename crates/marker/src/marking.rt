//! A plan that is marked, with all its legs.
ghost use Rattle.marker.specs.Table.{Tells};
ghost use Rattle.marker.specs.Spans.{SpansTell};
ghost use Rattle.marker.specs.Tasks.{TasksTell};

use crate::legs::LegTable;
use crate::spans::SpanTable;
use crate::tasks::TaskTable;
use model::Booking;
use routes::{RoutedPlan, Routes};

/// A plan, what it is a plan of, the bookings of its tasks, the legs of its transfers, and their spans.
#[derive(Drop)]
pub(crate) struct Marking<'a, 't, R: Routes> {
    pub(crate) marked: RoutedPlan<'a, R>,
    tasks: TaskTable,
    table: &'t LegTable,
    pub(crate) spans: &'t SpanTable,
    ghost tasks_told: { TasksTell tasks marked },
    ghost told: { Tells table.now marked },
    ghost spans_told: { SpansTell spans.now table.now },
}

impl<'a, 't, R: Routes> Marking<'a, 't, R> {
    ghost use Rattle.std.specs.Prelude.{◌≡◌, Bool};
    ghost use Rattle.std.specs.Option.{option_map};
    ghost use Rattle.std.specs.List.{slice_get};
    ghost use Rattle.model.specs.Plans.{task_row, task_booking};
    ghost use Rattle.routes.specs.Legs.{legs};
    ghost use Rattle.marker.specs.Table.{RowTells};
    ghost use Rattle.marker.specs.Markings.{on, TestsBy};
    ghost use Rattle.marker.specs.Verdicts.{any};
    ghost use Rattle.model.specs.declared.booking.Booking as Declared;

    /// The marking of a plan. It borrows the two large tables, since a table that it holds is moved with it.
    pub(crate) fn new(
        marked: RoutedPlan<'a, R>,
        table: &'t LegTable,
        spans: &'t SpanTable,
    ) -> Marking<'a, 't, R>
        requires told { Tells table.now marked }
        requires spans_told { SpansTell spans.now table.now }
        ensures { result.marked ≡ marked.entry }
    {
        let tasks = TaskTable::new(&marked);
        Marking {
            marked,
            tasks,
            table,
            spans,
        }
    }

    /// The booking of a task on its machine.
    pub(crate) fn booking(&self, t: usize) -> Option<Booking>
        ensures { result ≡ on self.now (λ J N ρ P. option_map (task_booking J N t) (task_row P t)) }
    {
        self.tasks.get(t)
    }

    /// The legs of edge `i`, hop by hop, and `None` after them.
    pub(crate) fn legs(&self, i: usize) -> &[Option<Booking>]
        ensures { RowTells result.now (on self.now legs i) }
    {
        self.table.row(i)
    }

    /// The leg of edge `i` on its hop `k`.
    pub(crate) fn leg(&self, i: usize, k: usize) -> Option<Booking>
        ensures { result ≡ slice_get (on self.now legs i) k }
    {
        *self.legs(i).get(k)?
    }

    /// Whether a leg of edge `i` passes `test`.
    pub(crate) fn any_leg<F: Fn(&Booking) -> bool>(&self, i: usize, test: F) -> bool
        requires { F.IsAlwaysCallable test }
        ensures { (passes : Declared.Booking → Bool) → TestsBy (F.post test) passes → result ≡ any (on self.now legs i) passes }
    {
        self.legs(i).iter().flatten().any(test)
    }
}
