//! What the marker says of a plan.
ghost use Rattle.std.specs.Prelude.{◌≡◌, [], ◌∷◌, Some};
ghost use Rattle.marker.specs.Letters.{letter};

use std::fmt;

/// The rules, by what each is about.
#[derive(Clone, Copy, Debug, PartialEq, Eq)]
pub enum Rule {
    /// A. Each filled row names a task or an edge of the job, and each placed task's station is a machine.
    Rows,
    /// B. Each predecessor of a placed task is placed.
    Predecessors,
    /// C. An edge between tasks on different machines has a route and as many starts as hops; any other edge has no starts.
    Routed,
    /// D. Each finish is at most 2,000,000,000.
    WithinLimit,
    /// E. A transfer's first start is not before the finish of the task that it comes from.
    Departure,
    /// F. On a later link a transfer starts no earlier than on its first, and finishes no earlier than on the one before.
    Causality,
    /// G. A task starts no earlier than the last finish of each incoming transfer, and than the finish of a predecessor on its own machine.
    Arrival,
    /// H. Two tasks on one machine share no tick.
    Machines,
    /// I. Two transfers on one link share no tick.
    Links,
}

impl Rule {
    /// All rules, in the order in which they are looked at.
    pub const ALL: [Rule; 9] = [
        Rule::Rows,
        Rule::Predecessors,
        Rule::Routed,
        Rule::WithinLimit,
        Rule::Departure,
        Rule::Causality,
        Rule::Arrival,
        Rule::Machines,
        Rule::Links,
    ];

    /// The letter of the rule.
    pub fn letter(self) -> char
        ensures { result ≡ letter self }
    {
        match self {
            Rule::Rows => 'A',
            Rule::Predecessors => 'B',
            Rule::Routed => 'C',
            Rule::WithinLimit => 'D',
            Rule::Departure => 'E',
            Rule::Causality => 'F',
            Rule::Arrival => 'G',
            Rule::Machines => 'H',
            Rule::Links => 'I',
        }
    }
}

impl fmt::Display for Rule {
    ghost output = { λ r. Some (letter r ∷ []) };

    fn fmt<W: fmt::Write>(&self, f: &mut fmt::Formatter<W>) -> fmt::Result {
        let letter = self.letter();
        write!(f, "{letter}")
    }
}

/// A plan is lawful, or a rule is broken by two numbers.
#[derive(Clone, Copy, Debug, PartialEq, Eq)]
pub enum Verdict {
    Lawful,
    /// For A and D, 0 and the task or 1 and the edge; for B, C, E and G, the edge and 0;
    /// for F, the edge and the hop from 0; for H and I, the two tasks or edges, the lower first.
    Broken(Rule, usize, usize),
}
