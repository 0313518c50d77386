//! Lists with room, and texts that grow.

use std::test::Fail;
use term_core::{Items, Slots, Text};

#[test]
fn a_list_with_room(rt: HostRuntime) -> Result<(), Fail> {
    let mut items = Items::new(rt.alloc());
    items.room(2)?;
    items.push(5u8)?;
    let mut slots = Slots::from_items(items);
    slots.room(1)?;
    slots.push_within(7);
    let items = slots.into_items();
    assert_eq!(rt; items.as_slice(), [5, 7].as_slice());
    assert_eq!(rt; items.get(1), Some(&7));
    assert_eq!(rt; items.get(2), None);
    let copy = items.copy(rt.alloc())?;
    assert!(rt; copy == items);
    Ok(())
}

#[test]
fn a_text_that_grows(rt: HostRuntime) -> Result<(), Fail> {
    let mut text = Text::from_str(rt.alloc(), "a")?;
    text.push_str("\u{e9}b")?;
    assert_eq!(rt; text.as_bytes(), b"a\xC3\xA9b".as_slice());
    Ok(())
}
