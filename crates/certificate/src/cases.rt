//! Cases that were worked out by hand, proved of the definitions by computing: there is nothing to run.
ghost use Rattle.certificate.specs.Cases.{WorkedCases};

/// A plan that is drawn and marked, the same plan spoilt in two ways, a fill, earliest starts, and two tasks on one machine.
pub fn worked_cases()
    ensures { WorkedCases }
{}
