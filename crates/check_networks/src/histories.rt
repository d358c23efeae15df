//! A history that does not keep its events.
use kpn_history::{Event, History, Keeping};
use std::test::Fail;

/// Events that are not kept, one by one or at once, take up no room.
#[test]
fn gives_no_room_to_what_it_does_not_keep(rt: HostRuntime) -> Result<(), Fail> {
    let mut history = History::keeping(rt.alloc(), Keeping::Ends);
    history.reserve(3)?;
    let room = history.room();
    history.push(Event::Feed(0, 5));
    history.append(&[Event::Get(0, 0, 5), Event::Put(0, 1, 6)]);
    assert!(rt; history.room() == room && history.len() == 0);
    Ok(())
}
