//! What can be asked of a sheet, and what it answers.

ghost use Rattle.std.specs.Prelude.{Some};
ghost use Rattle.certificate.specs.Answers.{answer_text};

use model::Refusal;
use std::fmt;

/// A call on a sheet. Any numbers may be given.
#[derive(Clone, Copy, Debug, PartialEq, Eq)]
pub enum Call {
    Place { task: usize, machine: usize },
    Try { task: usize, machine: usize },
    Keep,
    Strike,
    TakeBack,
    Fill,
}

/// What a call answers.
#[derive(Clone, Copy, Debug, PartialEq, Eq)]
pub enum Answer {
    /// The finish of the task that was placed or tried.
    Finish(u64),
    /// What was on trial is kept.
    Kept,
    /// The task of the step that was taken back or struck.
    Task(usize),
    /// The length of the plan that was filled.
    Length(u64),
    /// The call was refused, and changed nothing; a refused strike ended the trial as kept.
    Refused(Refusal),
    /// The sheet is on trial and the call is neither keep nor strike, or the other way round. Nothing changed.
    NotAllowed,
}

impl fmt::Display for Answer {
    ghost output = { λ answer. Some (answer_text answer) };

    fn fmt<W: fmt::Write>(&self, f: &mut fmt::Formatter<W>) -> fmt::Result {
        match self {
            Answer::Finish(finish) => write!(f, "finish {finish}"),
            Answer::Kept => f.write_str("kept"),
            Answer::Task(task) => write!(f, "task {task}"),
            Answer::Length(length) => write!(f, "length {length}"),
            Answer::Refused(refusal) => write!(f, "refused {refusal}"),
            Answer::NotAllowed => f.write_str("not allowed"),
        }
    }
}

/// A call, with its answer once it was carried out.
#[derive(Clone, Copy, Debug, PartialEq, Eq)]
pub struct Asked {
    pub call: Call,
    pub answer: Option<Answer>,
}
