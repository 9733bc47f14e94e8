//! What holds of all readings.
ghost use Rattle.tko_text.specs.ResponseReads.{BeginningHasNone, OneResponse};

/// A reading is one: what is read of bytes, memory aside, doesn't depend on the reader.
pub fn one_response()
    ensures response { OneResponse }
    ensures beginning { BeginningHasNone }
{}
