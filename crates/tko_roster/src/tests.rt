//! A session that leaves, and one that comes after it.
ghost use Rattle.std.specs.Prelude.{[]};

use crate::{Driven, Roster};
use std::test::Fail;

/// A session that does nothing.
#[derive(Drop)]
struct IdleSession;

impl Driven<()> for IdleSession {
    ghost use Rattle.std.specs.Prelude.{[]};

    type Input = ();

    type Output = ();

    ghost acts = { λ _ _ _. Unit {0} };

    ghost may = { λ _ _. Unit {0} };

    ghost ready = { λ _ _. Unit {0} };

    ghost stays = { λ _ _. Unit {0} };

    ghost awaited = { λ _. [] };

    ghost stay_ready = { λ _ _ _ _ _. tt };

    fn act(&mut self, _parts: &mut (), _input: ()) {}
}

#[test]
fn a_number_is_given_again_to_a_new_session(rt: HostRuntime) -> Result<(), Fail> {
    let mut roster = Roster::new(rt.alloc(), ());
    let number = roster.admit(IdleSession)?;
    assert!(rt; roster.release(number).is_some());
    assert_eq!(rt; roster.admit(IdleSession)?, number);
    Ok(())
}
