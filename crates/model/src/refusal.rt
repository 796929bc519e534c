//! Why a call is turned down: one case for each cause, with its detail.
ghost use Rattle.std.specs.Prelude.{◌≡◌, ℕ, if◌then◌else◌, Some, Ok, Err, Option};
ghost use Rattle.model.specs.declared.refusal.Refusal.{Refusal};
ghost use Rattle.model.specs.Refusals.{refusal_number, refusal_detail, length_refusal, first_refusal, refusal_of, RefusesBy};

use std::error::Error;
use std::fmt;

/// Each cause has a number, and a detail that says where it was found.
#[derive(Clone, Copy, Debug, PartialEq, Eq)]
pub enum Refusal {
    /// A list is shorter or longer than its limits: its length.
    ListLength(usize),
    /// A value is outside its limits: its place in its list.
    ValueLimits(usize),
    /// An edge is not rising, names an unknown task, or joins a pair used before: the edge.
    BadEdge(usize),
    /// A link has fewer than two stations or an unknown one: the link.
    BadLink(usize),
    /// A network has no machine.
    NoMachine,
    /// A written route is missing or breaks a law: 16 times the origin, plus the goal.
    BadRoute(usize),
    /// There is no such task: the number given.
    NoSuchTask(usize),
    /// The station is not a machine: the number given.
    NotAMachine(usize),
    /// The task is placed already: the task.
    AlreadyPlaced(usize),
    /// A predecessor is not placed: the lowest one.
    PredecessorUnplaced(usize),
    /// There is no step or booking to take back.
    NothingToTakeBack,
    /// There is no route for an edge: the lowest such edge.
    NoRoute(usize),
    /// More bookings are needed than there is room for: how many are needed.
    NoRoom(usize),
    /// There is no free start: the resource.
    NoStart(usize),
    /// Every machine refuses a task: the task.
    EveryMachineRefuses(usize),
    /// Sheet, plan and timetable do not belong together.
    NotInOrder,
}

impl Refusal {
    /// The number of the cause, and where it was found; 0 where there is nothing to tell.
    fn parts(&self) -> (u32, usize)
        ensures number { result.0 ≡ refusal_number self.now }
        ensures detail { result.1 ≡ refusal_detail self.now }
    {
        match *self {
            Refusal::ListLength(length) => (1, length),
            Refusal::ValueLimits(place) => (4, place),
            Refusal::BadEdge(edge) => (6, edge),
            Refusal::BadLink(link) => (7, link),
            Refusal::NoMachine => (8, 0),
            Refusal::BadRoute(pair) => (9, pair),
            Refusal::NoSuchTask(task) => (11, task),
            Refusal::NotAMachine(station) => (12, station),
            Refusal::AlreadyPlaced(task) => (13, task),
            Refusal::PredecessorUnplaced(task) => (14, task),
            Refusal::NothingToTakeBack => (15, 0),
            Refusal::NoRoute(edge) => (16, edge),
            Refusal::NoRoom(needed) => (17, needed),
            Refusal::NoStart(resource) => (18, resource),
            Refusal::EveryMachineRefuses(task) => (19, task),
            Refusal::NotInOrder => (20, 0),
        }
    }

    /// The number of the cause.
    pub fn number(&self) -> u32
        ensures { result ≡ refusal_number self.now }
    {
        self.parts().0
    }

    /// Where the cause was found; 0 where there is nothing to tell.
    pub fn detail(&self) -> usize
        ensures { result ≡ refusal_detail self.now }
    {
        self.parts().1
    }
}

/// The number and the detail.
impl fmt::Display for Refusal {
    ghost use Rattle.model.specs.Refusals.{refusal_text};

    ghost output = { λ r. Some (refusal_text r) };

    fn fmt<W: fmt::Write>(&self, f: &mut fmt::Formatter<W>) -> fmt::Result {
        let (number, detail) = self.parts();
        write!(f, "{number} {detail}")
    }
}

impl Error for Refusal {}

/// Refuses by `error`, unless what is asked for holds.
pub fn check<E: Drop>(holds: bool, error: E) -> Result<(), E>
    ensures { result ≡ (if holds then Ok tt else Err error) }
{
    if holds { Ok(()) } else { Err(error) }
}

/// Refuses a list that is shorter than `least` or longer than `most`.
pub(crate) fn check_length(length: usize, least: usize, most: usize) -> Result<(), Refusal>
    ensures { refusal_of result ≡ length_refusal least most length }
{
    check(
        (least..=most).contains(&length),
        Refusal::ListLength(length),
    )
}

/// The refusal of the first item that is refused; `test` is given each with its place.
pub(crate) fn check_each<T, F: Fn(usize, &T) -> Result<(), Refusal>>(
    items: &[T],
    test: F,
) -> Result<(), Refusal>
    requires { F.IsAlwaysCallable test }
    ensures { (refuse : ℕ → T → Option Refusal) → RefusesBy (F.post test) refuse → refusal_of result ≡ first_refusal refuse 0 items.now }
{
    for (place, item) in items.iter().enumerate() {
        test(place, item)?;
    }
    Ok(())
}
