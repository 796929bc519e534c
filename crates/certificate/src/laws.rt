//! The certificate, proved of the definitions: there is nothing to compute.
ghost use Rattle.certificate.specs.Certificate.{EveryDrawnPlan};
ghost use Rattle.certificate.specs.Promise.{EveryListOfCalls, EverySheetHandedIn};

/// Every plan that is drawn is lawful, and nothing in it could begin earlier.
pub fn drawn_plans_are_certified()
    ensures { EveryDrawnPlan }
{}

/// Whatever calls were made on a sheet, and whatever was refused, its plan is lawful, and nothing in it could begin earlier.
pub fn lists_of_calls_are_certified()
    ensures { EveryListOfCalls }
{}

/// Whatever calls led to a sheet, it is given a lawful slip when it is handed in.
pub fn drawn_sheets_are_given_lawful_slips()
    ensures { EverySheetHandedIn }
{}
