//! What no clause says: the happy paths.
use chan_values::{Access, Key};
use render_inbox::{Entry, Inbox};
use std::test::Fail;

/// What kind of entry it is, and its number.
fn told(entry: Option<Entry>) -> (char, u64) {
    match entry {
        None => ('-', 0),
        Some(Entry::Key(number, Key::Up, true)) => ('U', number),
        Some(Entry::Key(number, _, _)) => ('K', number),
        Some(Entry::Access(_, number, _)) => ('A', number),
        Some(Entry::TaskEnd(_, number, true)) => ('D', number),
        Some(Entry::TaskEnd(_, number, false)) => ('S', number),
    }
}

#[test]
fn entries_leave_in_the_order_in_which_they_came(rt: HostRuntime) -> Result<(), Fail> {
    let mut inbox = Inbox::new(rt.alloc());
    assert!(rt; inbox.is_empty());
    assert_eq!(rt; inbox.post(2, Access::Count { node: 1 })?, 1);
    assert_eq!(rt; inbox.post_key(Key::Up, true)?, 1);
    assert_eq!(rt; inbox.post(1, Access::Count { node: 1 })?, 1);
    assert_eq!(rt; inbox.post_end(2, true)?, 2);
    assert_eq!(rt; inbox.post_key(Key::Back, false)?, 2);
    assert_eq!(rt; inbox.post_end(1, false)?, 2);
    assert!(rt; !inbox.is_empty());
    for want in [
        ('A', 1),
        ('U', 1),
        ('A', 1),
        ('D', 2),
        ('K', 2),
        ('S', 2),
        ('-', 0),
    ] {
        assert!(rt; told(inbox.begin()) == want);
    }
    Ok(())
}

#[test]
fn the_first_post_of_an_actor_is_dropped_and_the_others_stay(rt: HostRuntime) -> Result<(), Fail> {
    let mut inbox = Inbox::new(rt.alloc());
    inbox.post_key(Key::Up, true)?;
    inbox.post(2, Access::Count { node: 1 })?;
    inbox.post(3, Access::Count { node: 1 })?;
    inbox.post_end(2, false)?;
    assert_eq!(rt; inbox.drop_of(1), None);
    assert_eq!(rt; inbox.drop_of(3), Some(1));
    assert_eq!(rt; inbox.drop_of(2), Some(1));
    for want in [('U', 1), ('S', 2), ('-', 0)] {
        assert!(rt; told(inbox.begin()) == want);
    }
    assert_eq!(rt; inbox.drop_of(2), None);
    Ok(())
}
