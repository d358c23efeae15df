//! Texts that end early, and one that goes on.

use kpn_text::{TextFault, read_network};
use std::alloc::Global;
use std::test::Fail;
use test_support::texts::COPY;

/// Whether a text is read, or its fault.
fn fault_of(alloc: Global, text: &[u8]) -> Option<TextFault> {
    read_network(alloc, text).err()
}

/// Whether a word after the network is refused at its byte.
fn refutes_accepts_words_after_the_network(alloc: Global) -> bool {
    fault_of(alloc, b"network { } x") == Some(TextFault::Grammar(12))
}

#[test]
fn a_text_that_ends_early_is_refused(rt: HostRuntime) -> Result<(), Fail> {
    let text = COPY.as_bytes();
    assert!(rt; refutes_accepts_words_after_the_network(rt.alloc()));
    assert_eq!(rt; text.len(), 115);
    for end in 0..114 {
        match fault_of(rt.alloc(), &text[..end]) {
            Some(TextFault::Grammar(at)) => assert!(rt; at <= end),
            _ => assert!(rt; false, "the front of {end} bytes is read"),
        }
    }
    Ok(())
}
