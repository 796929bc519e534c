//! When each transfer is on each link, link by link.
ghost use Rattle.std.specs.Prelude.{◌≡◌, ◌+◌, ◌<◌, Some};
ghost use Rattle.marker.specs.Table.{EndsAtCount};
ghost use Rattle.marker.specs.Spans.{span_of, span_in, overlaps, overlapped, IsBlankColumn, AreBlank, ColumnTells, SpansTell};

use crate::legs::LegTable;
use model::network::{MOST_LINKS, MOST_STATIONS};
use model::plan::TRANSFER_ROWS;
use model::{Booking, Tick};

/// `length` ticks from `start`.
#[derive(Clone, Copy)]
struct Span {
    start: Tick,
    length: Tick,
}

impl Span {
    /// No tick.
    const NONE: Span = Span {
        start: 0,
        length: 0,
    };

    /// The ticks of a booking.
    fn of(b: &Booking) -> Span
        ensures { result ≡ span_of (Some b.now) }
    {
        Span {
            start: b.start,
            length: b.length,
        }
    }

    /// The first tick after the span.
    fn end(&self) -> u64
        ensures { result ≡ self.now.start + self.now.length }
    {
        u64::from(self.start) + u64::from(self.length)
    }

    /// Whether each of the two starts before the other ends. Any two that share a tick do.
    fn overlaps(&self, other: &Span) -> bool
        ensures { result ≡ overlaps self.now other.now }
    {
        u64::from(self.start) < other.end() && u64::from(other.start) < self.end()
    }
}

/// The span on link `l` of the first leg in the row that is on it.
fn span_on_link(row: &[Option<Booking>], l: usize) -> Span
    requires { l < 32 }
    ensures { result ≡ span_in row.now l }
{
    row.iter()
        .flatten()
        .find(|b| b.resource == MOST_STATIONS + l)
        .map_or(Span::NONE, Span::of)
}

/// Puts the span of each edge on link `l` into a column of no span.
fn fill_column(column: &mut [Span; TRANSFER_ROWS], legs: &LegTable, l: usize)
    requires link { l < 32 }
    requires ends { EndsAtCount legs.now }
    requires blank { IsBlankColumn column.old }
    ensures { ColumnTells column.new legs.now l }
{
    for j in 0..legs.count() {
        column[j] = span_on_link(legs.row(j), l);
    }
}

/// The span of edge `j` on link `l` stands at place `j` of column `l`.
/// The columns are arrays, since the marker takes no heap.
#[derive(Drop)]
pub(crate) struct SpanTable {
    columns: [[Span; TRANSFER_ROWS]; MOST_LINKS],
}

impl SpanTable {
    /// A table of no span.
    pub(crate) fn blank() -> SpanTable
        ensures { AreBlank result }
    {
        SpanTable {
            columns: [[Span::NONE; TRANSFER_ROWS]; MOST_LINKS],
        }
    }

    /// Puts all spans of the legs in a table into a table of no span, where that stands.
    pub(crate) fn fill(&mut self, legs: &LegTable)
        requires ends { EndsAtCount legs.now }
        requires blank { AreBlank self.old }
        ensures { SpansTell self.new legs.now }
    {
        for l in 0..MOST_LINKS {
            fill_column(&mut self.columns[l], legs, l);
        }
    }

    /// Whether the booking overlaps the span of an edge after edge `i` on the same link.
    /// Of a booking that is on no link of the table that is not ruled out.
    pub(crate) fn is_overlapped(&self, b: &Booking, i: usize) -> bool
        ensures { result ≡ overlapped self.now i b.now }
    {
        let Some(column) = self.columns.get(b.resource.saturating_sub(MOST_STATIONS)) else {
            return true;
        };
        let booked = Span::of(b);
        column.iter().skip(i).skip(1).any(|s| s.overlaps(&booked))
    }
}
