//! A session in a box of its own, which C keeps.
ghost use Rattle.std.specs.Prelude.{◌≡◌, IfSome};
ghost use Rattle.kpn_c.specs.Sessions.{IsOpen, slot_with};

use crate::held::Held;
use crate::loose::Loose;
use crate::session::Session;
use std::alloc::Global;

/// A session, unless a call has it.
#[derive(Drop)]
pub struct Slot {
    pub(crate) session: Option<Session>,
}

/// Takes a session out of its box.
pub(crate) fn taken(held: Held) -> (Box<Slot, Global>, Session)
    requires { IsOpen held.slot }
    ensures { held.slot ≡ slot_with result.1 }
{
    let mut boxed = held.into_loose().into_box();
    let Some(session) = boxed.session.take() else {
        unreachable!()
    };
    (boxed, session)
}

/// Puts a session back into its box.
pub(crate) fn put_back(mut boxed: Box<Slot, Global>, session: Session) -> Held
    ensures { result.slot ≡ slot_with session }
{
    boxed.session = Some(session);
    Held::of(Loose::of(boxed))
}

/// Keeps a session in a new box. `None` if there is no memory for the box.
pub(crate) fn kept(alloc: Global, session: Session) -> Option<Held>
    ensures { IfSome result (λ held. held.slot ≡ slot_with session) }
{
    let slot = Slot {
        session: Some(session),
    };
    match Box::new(alloc, slot) {
        Ok(boxed) => Some(Held::of(Loose::of(boxed))),
        Err(_) => None,
    }
}

/// Frees a session.
pub(crate) fn free(held: Held)
    requires { IsOpen held.slot }
{
    drop(held.into_loose().into_box());
}
