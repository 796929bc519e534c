//! All legs of a plan, each computed once.
ghost use Rattle.std.specs.Prelude.{◌≡◌, [], slice_index_or};
ghost use Rattle.routes.specs.Legs.{legs};
ghost use Rattle.routes.specs.RoutedPlans.{on};
ghost use Rattle.marker.specs.Table.{IsBlank, EndsAtCount, RowTells, Tells};

use model::Booking;
use model::plan::{MOST_HOPS, TRANSFER_ROWS};
use routes::{RoutedPlan, Routes};
use std::array;

/// The legs of edge `i`, hop by hop, and `None` after them.
fn leg_row<R: Routes>(plan: &RoutedPlan<'_, R>, i: usize) -> [Option<Booking>; MOST_HOPS]
    ensures { RowTells result (on plan.now legs i) }
{
    array::from_fn(|k| plan.leg(i, k))
}

/// The leg of edge `i` on its hop `k` stands at place `k` of row `i`; from row `count` on there is none.
/// The rows are arrays, since the marker takes no heap.
#[derive(Drop)]
pub(crate) struct LegTable {
    rows: [[Option<Booking>; MOST_HOPS]; TRANSFER_ROWS],
    count: usize,
}

impl LegTable {
    /// A table of no leg.
    pub(crate) fn blank() -> LegTable
        ensures { IsBlank result }
    {
        LegTable {
            rows: [[None; MOST_HOPS]; TRANSFER_ROWS],
            count: 0,
        }
    }

    /// Puts all legs of a plan into a blank table. They are put where the table stands: one that is handed out is moved,
    /// and it is large.
    pub(crate) fn fill<R: Routes>(&mut self, plan: &RoutedPlan<'_, R>)
        requires { IsBlank self.old }
        ensures tells { Tells self.new plan.now }
        ensures ends { EndsAtCount self.new }
    {
        let count = plan.job.edge_count();
        for i in 0..count {
            self.rows[i] = leg_row(plan, i);
        }
        self.count = count;
    }

    /// How many rows can have a leg.
    pub(crate) fn count(&self) -> usize
        ensures { result ≡ self.now.count }
    {
        self.count
    }

    /// The legs of edge `i`, hop by hop, and `None` after them.
    pub(crate) fn row(&self, i: usize) -> &[Option<Booking>]
        ensures { result.now ≡ slice_index_or self.now.rows i [] }
    {
        self.rows.get(i).map_or(&[], |row| row.as_slice())
    }
}
