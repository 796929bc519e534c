//! What was made of a setting.
ghost use Rattle.model.specs.Data.{net_of};
ghost use Rattle.routes.specs.Laws.{RouteLaws};

use crate::table_form::TableForm;
use model::Job;
use routes::Routes;
use script::RouteKind;

/// The job of a setting and the routes for it, of the kind that the script asks for; and which timetable is wanted.
/// `keeps` is what `R` promises of the routes; by it the definitions on this struct find the members of `R`.
#[derive(Drop)]
pub struct Made<'a, R: Routes> {
    pub job: &'a Job,
    pub routes: &'a R,
    pub kind: RouteKind,
    pub table: TableForm,
    ghost keeps: { RouteLaws (net_of (R.Routes.over routes.now)) (R.Routes.route routes.now) },
}

impl<'a, R: Routes> Made<'a, R> {
    ghost use Rattle.std.specs.Prelude.{◌≡◌};

    /// This job and these routes.
    pub fn new(job: &'a Job, routes: &'a R, kind: RouteKind, table: TableForm) -> Made<'a, R>
        ensures job { result.job.now ≡ job.now }
        ensures routes { result.routes.now ≡ routes.now }
        ensures kind { result.kind ≡ kind }
        ensures table { result.table ≡ table }
    {
        Made {
            job,
            routes,
            kind,
            table,
        }
    }
}
