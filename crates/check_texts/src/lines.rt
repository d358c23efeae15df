//! An event of each kind with its line.
use kpn_history::{Event, How};
use kpn_trace::{Version, event_line, read_event};
use std::alloc::Global;
use std::test::Fail;

const ROWS: [(Event, &str); 15] = [
    (Event::Get(1, 0, -7), "get 1 0 -7"),
    (Event::Put(0, 65535, 312), "put 0 65535 312"),
    (Event::WaitEmpty(1, 10), "wait-empty 1 10"),
    (Event::WaitFull(200, 0), "wait-full 200 0"),
    (Event::Ended(0, How::Done), "end 0 done"),
    (Event::Ended(9, How::Overflow), "end 9 overflow"),
    (Event::Ended(99, How::ZeroDivisor), "end 99 zero-divisor"),
    (Event::Ended(0, How::Index), "end 0 index"),
    (Event::Ended(0, How::Shift), "end 0 shift"),
    (Event::Feed(3, i64::MIN), "feed 3 -9223372036854775808"),
    (Event::Close(3), "close 3"),
    (Event::Take(2, i64::MAX), "take 2 9223372036854775807"),
    (Event::Leave(1023), "leave 1023"),
    (Event::Grow(0, 0, 2), "grow 0 0 2"),
    (
        Event::Grow(65535, 1023, 1_048_576),
        "grow 65535 1023 1048576",
    ),
];

// Whether the event is written as this line, and the line read as the event.
fn is_line_of(alloc: Global, event: &Event, line: &str) -> bool {
    let mut text = Vec::new(alloc);
    let written = event_line(&mut text, event).is_ok();
    written
        && text.strip_suffix(b"\n") == Some(line.as_bytes())
        && read_event(line.as_bytes(), Version::Two) == Ok(*event)
}

#[test]
fn each_event_has_its_line(rt: HostRuntime) -> Result<(), Fail> {
    for (event, line) in &ROWS {
        assert!(rt; is_line_of(rt.alloc(), event, line), "{line}");
    }
    Ok(())
}
