//! Which timetable a script asks for.

use script::TimetableKind;

/// The kind of the timetable, and for how many bookings it has room.
#[derive(Clone, Copy, Debug, PartialEq, Eq)]
pub struct TableForm {
    pub kind: TimetableKind,
    pub most: usize,
}
