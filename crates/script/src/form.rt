//! The first word of a line whose other words are numbers.
ghost use Rattle.std.specs.Prelude.{◌≡◌};
ghost use Rattle.std.specs.Option.{ok_or};
ghost use Rattle.script.specs.Form.{form_named};
ghost use Rattle.script.specs.declared.error.LineError.TheVariants.{NotUnderstood};

use crate::error::LineError;

/// What the numbers of a line are for.
#[derive(Clone, Copy, Debug, PartialEq, Eq)]
pub enum Form {
    Task,
    Edge,
    Machine,
    Switch,
    Link,
    Route,
    Bookings,
    Answer,
    Row,
    Starts,
    Mark,
    Place,
    Try,
    Keep,
    Strike,
    Back,
    Fill,
    Show,
}

/// The form that a word names.
impl TryFrom<&[u8]> for Form {
    type Error = LineError;

    ghost try_from_gives = { λ word r. r ≡ ok_or (form_named word.now) NotUnderstood };

    #[tactic(auto, using(crate::proofs::Named::is_name))]
    fn try_from(word: &[u8]) -> Result<Form, LineError> {
        match word {
            b"task" => Ok(Form::Task),
            b"edge" => Ok(Form::Edge),
            b"machine" => Ok(Form::Machine),
            b"switch" => Ok(Form::Switch),
            b"link" => Ok(Form::Link),
            b"route" => Ok(Form::Route),
            b"bookings" => Ok(Form::Bookings),
            b"answer" => Ok(Form::Answer),
            b"row" => Ok(Form::Row),
            b"starts" => Ok(Form::Starts),
            b"mark" => Ok(Form::Mark),
            b"place" => Ok(Form::Place),
            b"try" => Ok(Form::Try),
            b"keep" => Ok(Form::Keep),
            b"strike" => Ok(Form::Strike),
            b"back" => Ok(Form::Back),
            b"fill" => Ok(Form::Fill),
            b"show" => Ok(Form::Show),
            _ => Err(LineError::NotUnderstood),
        }
    }
}
