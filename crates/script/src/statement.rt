//! What the words of a line say.
ghost use Rattle.std.specs.Prelude.{◌≡◌};
ghost use Rattle.std.specs.Option.{ok_or, option_and_then};
ghost use Rattle.script.specs.Data.{line_data};
ghost use Rattle.script.specs.Number.{numbers_of};
ghost use Rattle.script.specs.Statement.{task_of, edge_of, machine_of, alone_of, link_of, route_of, bookings_of, row_of, starts_of, place_of, try_of, form_line, kind_named, routes_of, hand_of, bits_of, timetable_of, line_of};
ghost use Rattle.script.specs.Tell.{TellsLine};
ghost use Rattle.script.specs.Words.{words_left};
ghost use Rattle.script.specs.declared.error.LineError.TheVariants.{NotUnderstood};

use crate::error::LineError;
use crate::form::Form;
use crate::hop::Hops;
use crate::line::{Line, RouteKind, TimetableKind};
use crate::list::list_of;
use crate::number::{Numbers, exactly, next_number};
use crate::words::Words;
use std::alloc::Global;

// These are the limits of plans and timetables, said again, since this crate stands on no other.

/// The size of the largest list of bookings.
const MOST_BOOKINGS: u32 = 4096;
/// The most words of a bit sheet for each resource.
const MOST_WORDS: u32 = 1024;
/// The largest task of a row.
const LAST_TASK: u32 = 127;
/// The largest station of a row.
const LAST_STATION: u32 = 15;
/// The largest edge of a list of starts.
const LAST_EDGE: u32 = 223;
/// The most starts of an edge.
const MOST_STARTS: usize = 15;

/// `task WORK`
fn task(words: Words) -> Result<Line, LineError>
    ensures { TellsLine result (option_and_then task_of (numbers_of (words_left words.entry))) }
{
    let [work] = exactly::<1>(words)?;
    Ok(Line::Task { work })
}

/// `edge FROM TO VOLUME`
fn edge(words: Words) -> Result<Line, LineError>
    ensures { TellsLine result (option_and_then edge_of (numbers_of (words_left words.entry))) }
{
    let [from, to, volume] = exactly::<3>(words)?;
    Ok(Line::Edge { from, to, volume })
}

/// `machine SPEED`
fn machine(words: Words) -> Result<Line, LineError>
    ensures { TellsLine result (option_and_then machine_of (numbers_of (words_left words.entry))) }
{
    let [speed] = exactly::<1>(words)?;
    Ok(Line::Machine { speed })
}

/// A line of one word, which says `line`.
fn alone(line: Line, words: Words) -> Result<Line, LineError>
    ensures { TellsLine result (option_and_then (alone_of (line_data line)) (numbers_of (words_left words.entry))) }
{
    let [] = exactly::<0>(words)?;
    Ok(line)
}

/// `link SPEED STATION STATION ..`
fn link(heap: Global, mut words: Words) -> Result<Line, LineError>
    ensures { TellsLine result (option_and_then link_of (numbers_of (words_left words.entry))) }
{
    let speed = next_number(&mut words)?;
    let numbers = Numbers::new(words).ok_or(LineError::NotUnderstood)?;
    let stations = list_of(heap, numbers)?;
    Ok(Line::Link { speed, stations })
}

/// `route FROM TO LINK STATION LINK STATION ..`
fn route(heap: Global, mut words: Words) -> Result<Line, LineError>
    ensures { TellsLine result (option_and_then route_of (numbers_of (words_left words.entry))) }
{
    let from = next_number(&mut words)?;
    let to = next_number(&mut words)?;
    let pairs = Numbers::new(words).ok_or(LineError::NotUnderstood)?;
    let hops = Hops::new(pairs).ok_or(LineError::NotUnderstood)?;
    let hops = list_of(heap, hops)?;
    Ok(Line::Route { from, to, hops })
}

/// `bookings MOST`
fn bookings(words: Words) -> Result<Line, LineError>
    ensures { TellsLine result (option_and_then bookings_of (numbers_of (words_left words.entry))) }
{
    match exactly::<1>(words)? {
        [most @ ..=MOST_BOOKINGS] => Ok(Line::Bookings { most }),
        _ => Err(LineError::NotUnderstood),
    }
}

/// `row TASK STATION START`
fn row(words: Words) -> Result<Line, LineError>
    ensures { TellsLine result (option_and_then row_of (numbers_of (words_left words.entry))) }
{
    match exactly::<3>(words)? {
        [task @ ..=LAST_TASK, station @ ..=LAST_STATION, start] => Ok(Line::Row {
            task,
            station,
            start,
        }),
        _ => Err(LineError::NotUnderstood),
    }
}

/// `starts EDGE START START ..`
fn starts(heap: Global, mut words: Words) -> Result<Line, LineError>
    ensures { TellsLine result (option_and_then starts_of (numbers_of (words_left words.entry))) }
{
    let edge = next_number(&mut words)?;
    let ticks = Numbers::new(words).ok_or(LineError::NotUnderstood)?;
    match (edge, ticks.len()) {
        (..=LAST_EDGE, 1..=MOST_STARTS) => {
            let starts = list_of(heap, ticks)?;
            Ok(Line::Starts { edge, starts })
        }
        _ => Err(LineError::NotUnderstood),
    }
}

/// `place TASK MACHINE`
fn place(words: Words) -> Result<Line, LineError>
    ensures { TellsLine result (option_and_then place_of (numbers_of (words_left words.entry))) }
{
    let [task, machine] = exactly::<2>(words)?;
    Ok(Line::Place { task, machine })
}

/// `try TASK MACHINE`
fn trial(words: Words) -> Result<Line, LineError>
    ensures { TellsLine result (option_and_then try_of (numbers_of (words_left words.entry))) }
{
    let [task, machine] = exactly::<2>(words)?;
    Ok(Line::Try { task, machine })
}

/// What a line of a form says with these words, as numbers.
fn numbered(heap: Global, form: Form, words: Words) -> Result<Line, LineError>
    ensures { TellsLine result (option_and_then (form_line form) (numbers_of (words_left words.entry))) }
{
    // By form and not by word: what the numbers of a line say is defined over the forms.
    match form {
        Form::Task => task(words),
        Form::Edge => edge(words),
        Form::Machine => machine(words),
        Form::Switch => alone(Line::Switch, words),
        Form::Link => link(heap, words),
        Form::Route => route(heap, words),
        Form::Bookings => bookings(words),
        Form::Answer => alone(Line::Answer, words),
        Form::Row => row(words),
        Form::Starts => starts(heap, words),
        Form::Mark => alone(Line::Mark, words),
        Form::Place => place(words),
        Form::Try => trial(words),
        Form::Keep => alone(Line::Keep, words),
        Form::Strike => alone(Line::Strike, words),
        Form::Back => alone(Line::Back, words),
        Form::Fill => alone(Line::Fill, words),
        Form::Show => alone(Line::Show, words),
    }
}

/// The kind of routes that a word names.
impl TryFrom<&[u8]> for RouteKind {
    type Error = LineError;

    ghost try_from_gives = { λ word r. r ≡ ok_or (kind_named word.now) NotUnderstood };

    #[tactic(auto, using(crate::proofs::Named::is_name))]
    fn try_from(word: &[u8]) -> Result<RouteKind, LineError> {
        match word {
            b"hops" => Ok(RouteKind::Hops),
            b"slowness" => Ok(RouteKind::Slowness),
            b"written" => Ok(RouteKind::Written),
            _ => Err(LineError::NotUnderstood),
        }
    }
}

/// `routes hops`, `routes slowness` or `routes written`: `words` are those after the first.
fn routes(mut words: Words) -> Result<Line, LineError>
    ensures { TellsLine result (routes_of (words_left words.entry)) }
{
    let (Some(word), None) = (words.next(), words.next()) else {
        return Err(LineError::NotUnderstood);
    };
    RouteKind::try_from(word).map(Line::Routes)
}

/// `hand in`: `words` are those after the first.
#[tactic(auto, using(crate::proofs::Named::is_name))]
fn hand(mut words: Words) -> Result<Line, LineError>
    ensures { TellsLine result (hand_of (words_left words.entry)) }
{
    let (Some(word), None) = (words.next(), words.next()) else {
        return Err(LineError::NotUnderstood);
    };
    match word {
        b"in" => Ok(Line::HandIn),
        _ => Err(LineError::NotUnderstood),
    }
}

/// `timetable bits W`: `words` are those after the first two.
fn bits(words: Words) -> Result<Line, LineError>
    ensures { TellsLine result (option_and_then bits_of (numbers_of (words_left words.entry))) }
{
    match exactly::<1>(words)? {
        [words @ ..=MOST_WORDS] => Ok(Line::Timetable(TimetableKind::Bits(words))),
        _ => Err(LineError::NotUnderstood),
    }
}

/// `timetable roll` or `timetable bits W`: `words` are those after the first.
#[tactic(auto, using(crate::proofs::Named::is_name))]
fn timetable(mut words: Words) -> Result<Line, LineError>
    ensures { TellsLine result (timetable_of (words_left words.entry)) }
{
    match words.next() {
        Some(b"roll") => alone(Line::Timetable(TimetableKind::Roll), words),
        Some(b"bits") => bits(words),
        _ => Err(LineError::NotUnderstood),
    }
}

/// What a line says that begins with `word`, before `words`.
pub fn statement_of(heap: Global, word: &[u8], words: Words) -> Result<Line, LineError>
    ensures { TellsLine result (line_of word.now (words_left words.entry)) }
{
    if word == b"routes".as_slice() {
        return routes(words);
    }
    if word == b"hand".as_slice() {
        return hand(words);
    }
    if word == b"timetable".as_slice() {
        return timetable(words);
    }
    let form = Form::try_from(word)?;
    numbered(heap, form, words)
}
