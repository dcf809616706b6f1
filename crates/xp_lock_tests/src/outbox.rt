//! Outboxes: two threads hand items over in order, and places are filled and freed, also where an outbox was refused before.

ghost use Rattle.std.specs.Prelude.{◌≡◌, IfOk};

use std::alloc::{AllocError, Allocator, Global};
use std::sync::Wait;
use std::test::Fail;
use std::thread;
use xp_outbox::{PutEnd, TakeEnd, count_untaken, outbox};
use xp_testing::Refusing;

const PLACES: usize = 64;

const ITEMS: usize = 1000;

/// Puts the numbers in order, each once a place is free.
fn put_all<R: Wait>(rt: &R, end: PutEnd<usize, Global>) -> PutEnd<usize, Global>
    ensures { result.queue ≡ end.queue }
{
    let mut end = end;
    let mut next = 0;
    for _ in rt.forever() {
        if next >= ITEMS {
            break;
        }
        if end.room(rt) > 0 {
            end.put(rt, next);
            next += 1;
        } else {
            thread::yield_now();
        }
    }
    end
}

/// Takes as many items: how many came in order.
fn take_all<R: Wait>(rt: &R, end: TakeEnd<usize, Global>) -> (TakeEnd<usize, Global>, usize)
    ensures { result.0.queue ≡ end.queue }
{
    let mut end = end;
    let mut next = 0;
    for _ in rt.forever() {
        if next >= ITEMS {
            break;
        }
        match end.take(rt) {
            Some(item) if item == next => next += 1,
            Some(_) => break,
            None => thread::yield_now(),
        }
    }
    (end, next)
}

#[test]
fn two_threads_hand_items_over_in_order(rt: HostRuntime) -> Result<(), Fail> {
    let (put, taken) = outbox(rt.alloc(), PLACES)?;
    let (mut put, (taken, count)) = thread::join(
        &rt,
        move ||
            ensures { result.queue ≡ put.queue }
        { put_all(&rt, put) },
        move ||
            ensures { result.0.queue ≡ taken.queue }
        { take_all(&rt, taken) },
    );
    assert_eq!(rt; (count_untaken(&rt, &mut put, taken), count), (0, ITEMS));
    Ok(())
}

/// Fills the places in order, and frees them. Whether each is as it is to be.
fn fills_and_frees<A: Allocator + Copy>(
    rt: &impl Wait,
    put: &mut PutEnd<usize, A>,
    taken: &mut TakeEnd<usize, A>,
) -> bool {
    let mut as_told = put.room(rt) == PLACES;
    for place in 0..PLACES {
        if put.free() > 0 {
            put.put(rt, place);
        }
    }
    as_told = as_told && put.free() == 0 && put.room(rt) == 0;
    as_told = as_told && taken.take(rt) == Some(0) && put.free() == 0 && put.room(rt) == 1;
    for place in 1..PLACES {
        as_told = taken.take(rt) == Some(place) && as_told;
    }
    as_told && taken.take(rt).is_none() && put.room(rt) == PLACES
}

/// The ends of an outbox. Where memory is refused it is asked for once more.
fn ends_of<A: Allocator + Copy>(
    alloc: A,
) -> Result<(PutEnd<usize, A>, TakeEnd<usize, A>), AllocError>
    ensures { IfOk result (λ ends. ends.0.queue ≡ ends.1.queue) }
{
    match outbox(alloc, PLACES) {
        Ok(ends) => Ok(ends),
        Err(_) => outbox(alloc, PLACES),
    }
}

/// Whether an outbox whose request for memory of this number is refused is as it is to be, and whether none was refused.
fn trial(rt: &impl Wait, alloc: Global, number: u64) -> Result<(bool, bool), AllocError> {
    let scarce = Refusing::new(alloc, number);
    let (mut put, mut taken) = ends_of(&scarce)?;
    let as_told = fills_and_frees(rt, &mut put, &mut taken);
    Ok((as_told, scarce.is_pending()))
}

#[test]
fn places_are_filled_and_freed(rt: HostRuntime) -> Result<(), Fail> {
    let mut refused = 0u64;
    for number in 1..20u64 {
        let (as_told, is_whole) = trial(&rt, rt.alloc(), number)?;
        assert!(rt; as_told, "{number}");
        if is_whole {
            break;
        }
        refused = number;
    }
    assert!(rt; refused > 1 && refused < 19, "{refused} requests");
    Ok(())
}
