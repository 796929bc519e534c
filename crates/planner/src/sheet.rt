//! Sheets: a plan is drawn on a sheet, which counts the plan's steps.

/// A sheet that is drawn on. Plan and timetable are lent at each call.
#[derive(Drop)]
pub struct Drawing {
    pub(crate) count: usize,
}

/// A sheet whose last step is on trial. Only `keep` and `strike` spend it: it is not `Drop`, so it cannot be let fall.
pub struct OnTrial {
    pub(crate) count: usize,
}

/// A sheet that is drawn on no more.
#[derive(Drop)]
pub struct HandedIn {
    pub(crate) count: usize,
}
