//! Names by their bytes, and lists that grow.

use slot_core::{List, Name, Span, Words};
use std::alloc::Global;
use std::test::Fail;

#[test]
fn calls_answer_with_ample_memory(rt: HostRuntime) -> Result<(), Fail> {
    let slots = slots(rt.alloc())?;
    assert!(rt; slots.items() == [3, 1, 2].as_slice());
    let words = words(rt.alloc())?;
    assert!(rt; words.len() == 3);
    Ok(())
}

/// A list of three numbers.
fn slots(alloc: Global) -> Result<List<u32>, Fail> {
    let mut slots = List::new(alloc);
    for n in [3, 1, 2] {
        slots.push(n)?;
    }
    Ok(slots)
}

/// Three words.
fn words(alloc: Global) -> Result<Words, Fail> {
    let mut words = Words::new(alloc);
    for word in ["check", "", "a b"] {
        words.push(word)?;
    }
    Ok(words)
}

#[test]
fn names_by_their_bytes(rt: HostRuntime) {
    let longest = "abcdefghijklmnopqrstuvwx";
    let cases = [
        ("a", true),
        ("Z9_-", true),
        (longest, true),
        ("abcdefghijklmnopqrstuvwxy", false),
        ("", false),
        ("9x", false),
        ("_x", false),
        ("a b", false),
        ("caf\u{e9}", false),
    ];
    for (text, is_name) in cases {
        assert!(rt; Name::of(text.as_bytes()).is_some() == is_name, "{text}");
    }
    assert!(rt; Span::default().spare == 0);
}
