//! The law of replies.
ghost use Rattle.al_session.specs.Laws.{OneReply};

/// A request has at most one reply over a chain, so that an answer that is none of want of memory
/// is fixed by the request and the front.
pub fn one_reply()
    ensures { OneReply }
{}
