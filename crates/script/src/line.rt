//! What a line of a script says.

/// Which routes the script asks for.
#[derive(Clone, Copy, Debug, PartialEq, Eq)]
pub enum RouteKind {
    Hops,
    Slowness,
    Written,
}

/// Which timetable the script asks for.
#[derive(Clone, Copy, Debug, PartialEq, Eq)]
pub enum TimetableKind {
    Roll,
    /// A bit sheet with this many words for each resource.
    Bits(u32),
}

/// One hop of a written route: the numbers of a link and of the station that it reaches.
#[derive(Clone, Copy, Debug, PartialEq, Eq)]
pub struct HopWords {
    pub link: u32,
    pub station: u32,
}

/// A line that is understood.
#[derive(Debug, PartialEq, Drop)]
pub enum Line {
    /// `task WORK`
    Task {
        work: u32,
    },
    /// `edge FROM TO VOLUME`
    Edge {
        from: u32,
        to: u32,
        volume: u32,
    },
    /// `machine SPEED`
    Machine {
        speed: u32,
    },
    /// `switch`
    Switch,
    /// `link SPEED STATION STATION ..`, with any number of stations, none included
    Link {
        speed: u32,
        stations: Vec<u32>,
    },
    /// `routes hops`, `routes slowness` or `routes written`
    Routes(RouteKind),
    /// `route FROM TO LINK STATION LINK STATION ..`, with any number of hops, none included
    Route {
        from: u32,
        to: u32,
        hops: Vec<HopWords>,
    },
    /// `bookings MOST`, 0 to 4096
    Bookings {
        most: u32,
    },
    /// `timetable roll` or `timetable bits W`, with 0 to 1024 words
    Timetable(TimetableKind),
    /// `answer`
    Answer,
    /// `row TASK STATION START`, with a task up to 127 and a station up to 15
    Row {
        task: u32,
        station: u32,
        start: u32,
    },
    /// `starts EDGE START START ..`, with an edge up to 223 and 1 to 15 starts
    Starts {
        edge: u32,
        starts: Vec<u32>,
    },
    /// `mark`
    Mark,
    /// `place TASK MACHINE`
    Place {
        task: u32,
        machine: u32,
    },
    /// `try TASK MACHINE`
    Try {
        task: u32,
        machine: u32,
    },
    /// `keep`
    Keep,
    /// `strike`
    Strike,
    /// `back`
    Back,
    /// `fill`
    Fill,
    /// `show`
    Show,
    /// `hand in`
    HandIn,
}
