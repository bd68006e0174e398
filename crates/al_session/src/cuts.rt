//! The law of a served connection's cut.
ghost use Rattle.al_session.specs.Cuts.{ServedIsCut};

/// A connection that no failed sink, want of memory or number of requests ended has cut the bytes
/// that it took into their requests and the rest, of which there is one way.
pub fn served_is_cut()
    ensures { ServedIsCut }
{}
