// Laws of requests on a stream.
ghost use Rattle.al_http.specs.Laws.{OneRequest, CutsAgree, NothingLeft, OneCut, UnfinishedIsNotRefused};

/// No request begins another.
pub fn one_request()
    ensures { OneRequest }
{}

/// Two cuts of one stream have the same requests, as far as both go.
pub fn cuts_agree()
    ensures { CutsAgree }
{}

/// A rest begins with no request.
pub fn nothing_left()
    ensures { NothingLeft }
{}

/// A stream has one cut.
pub fn one_cut()
    ensures { OneCut }
{}

/// What may still become a request begins with no whole head whose body is refused.
pub fn unfinished_is_not_refused()
    ensures { UnfinishedIsNotRefused }
{}
