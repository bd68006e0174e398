//! What holds of the definitions alone.
ghost use Rattle.al_routes.specs.Asks.{OneAnswer};

/// A method and a target ask one thing, or have one first fault.
pub fn one_answer()
    ensures { OneAnswer }
{}
