//! The command words.
ghost use Rattle.std.specs.Prelude.{◌≡◌};
ghost use Rattle.tko_text.specs.Commands.{form_of};

use crate::Verb;

/// The forms of a request line, by its command word.
#[derive(Clone, Copy, Debug, PartialEq, Eq)]
pub(crate) enum Form {
    Get,
    Gets,
    Store(Verb),
    Cas,
    Delete,
    Incr,
    Decr,
    Touch,
    Version,
    Quit,
    Stats,
}

/// The form of a command word.
#[tactic(auto, unfolding(crate::specs::Commands::form_of))]
pub(crate) fn form_of(word: &[u8]) -> Option<Form>
    ensures { result ≡ form_of word.now }
{
    if word == b"get".as_slice() {
        Some(Form::Get)
    } else if word == b"gets".as_slice() {
        Some(Form::Gets)
    } else if word == b"set".as_slice() {
        Some(Form::Store(Verb::Set))
    } else if word == b"add".as_slice() {
        Some(Form::Store(Verb::Add))
    } else if word == b"replace".as_slice() {
        Some(Form::Store(Verb::Replace))
    } else if word == b"append".as_slice() {
        Some(Form::Store(Verb::Append))
    } else if word == b"prepend".as_slice() {
        Some(Form::Store(Verb::Prepend))
    } else if word == b"cas".as_slice() {
        Some(Form::Cas)
    } else if word == b"delete".as_slice() {
        Some(Form::Delete)
    } else if word == b"incr".as_slice() {
        Some(Form::Incr)
    } else if word == b"decr".as_slice() {
        Some(Form::Decr)
    } else if word == b"touch".as_slice() {
        Some(Form::Touch)
    } else if word == b"version".as_slice() {
        Some(Form::Version)
    } else if word == b"quit".as_slice() {
        Some(Form::Quit)
    } else if word == b"stats".as_slice() {
        Some(Form::Stats)
    } else {
        None
    }
}
