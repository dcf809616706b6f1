//! Notices of the lines' connections.

use std::test::Fail;
use xp_clock::Start;
use xp_tcp::{DownReason, Notice, Notices};

/// How many notices wait at most.
const ROOM: u16 = 1_024;

/// A notice of a line.
fn down(line: u16) -> Notice {
    Notice::Down {
        line,
        reason: DownReason::Closed,
    }
}

/// Whether a notice is that one of a line.
fn is_down(notice: Option<Notice>, of: u16) -> bool {
    match notice {
        Some(
            Notice::Down {
                line,
                reason: DownReason::Closed,
            },
        ) => line == of,
        _ => false,
    }
}

/// Tells three notices more than there is room for, and takes those that wait; then tells and takes one. How many were lost, how many
/// came in the order in which they were told, and how many were lost once more.
fn told(notices: &Notices) -> (u64, u64, u64) {
    for line in 0..ROOM + 3 {
        notices.tell(down(line));
    }
    let lost = notices.take_lost();
    let mut in_order = 0u64;
    for line in 0..ROOM + 3 {
        if is_down(notices.take(), line) {
            in_order = in_order.saturating_add(1);
        }
    }
    notices.tell(down(7));
    if is_down(notices.take(), 7) {
        in_order = in_order.saturating_add(1);
    }
    (lost, in_order, notices.take_lost())
}

/// Those for which there is no room are counted, and those that wait come in the order in which they were told.
#[test]
fn more_notices_than_there_is_room_for(rt: HostRuntime) -> Result<(), Fail> {
    let notices = Notices::new(rt.alloc(), Start::read())?;
    let told = told(&notices);
    drop(notices);
    assert!(rt; told == (3, u64::from(ROOM) + 1, 0));
    Ok(())
}
