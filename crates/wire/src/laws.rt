//! Laws of what bytes begin with: public calls that do nothing, whose contracts are the laws.
ghost use Rattle.wire.specs.Laws.{RequestsDecide, ResponsesDecide};

/// Bytes begin with one request, one refusal or neither, and what decides decides whatever follows.
pub fn requests_decide()
    ensures { RequestsDecide }
{}

/// The same of responses.
pub fn responses_decide()
    ensures { ResponsesDecide }
{}
