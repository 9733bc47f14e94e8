//! Laws of the grammar. Each is the contract of a function that does nothing.
ghost use Rattle.tko_text.specs.Printed.{ReadAgain};
ghost use Rattle.tko_text.specs.Reading.{FeedingKeeps, OneReading};

/// However the input is cut into pieces, the same items are read.
pub fn any_cutting()
    ensures feeding { FeedingKeeps }
    ensures one { OneReading }
{}

/// What `Request::write` prints is read as that request, whatever follows it, where its line has at
/// most 65,536 bytes before its LF.
pub fn read_again()
    ensures { ReadAgain }
{}
