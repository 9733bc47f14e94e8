//! The tokens of the poll: whose event it is.
ghost use Rattle.std.specs.Prelude.{◌≡◌, ◌<◌, IfSome};
ghost use Rattle.tko_loop.specs.Targets.{target_of};

use mio::Token;

/// Whose event it is: token 0 is the waker's, then come the servers', and then the seats of
/// clients.
#[derive(Clone, Copy, Debug, PartialEq, Eq)]
pub(crate) enum Target {
    Waker,
    Server(usize),
    Seat(usize),
}

/// The waker's token.
pub(crate) const WAKER: Token = Token(0);

/// Whose event it is that has this token, where there are so many servers.
pub(crate) fn target_of(servers: usize, token: Token) -> Target
    ensures { result ≡ target_of servers token.0 }
{
    if token.0 == 0 {
        return Target::Waker;
    }
    let place = token.0 - 1;
    if place < servers {
        return Target::Server(place);
    }
    Target::Seat(place - servers)
}

/// The token of a server's socket.
pub(crate) fn server_token(servers: usize, server: usize) -> Token
    requires { server < servers }
    ensures { target_of servers result.0 ≡ Target.Server server }
{
    Token(server + 1)
}

/// The token of a seat. There is none for the greatest numbers.
pub(crate) fn seat_token(servers: usize, seat: usize) -> Option<Token>
    ensures { IfSome result (λ token. target_of servers token.0 ≡ Target.Seat seat) }
{
    let place = servers.checked_add(seat)?;
    Some(Token(place.checked_add(1)?))
}
