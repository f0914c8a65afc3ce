//! One seat's answers in order, and four threads' numbers.

ghost use Rattle.std.specs.Prelude.{◌≡◌, ◌<◌, All, IfOk, vec_len};
ghost use Rattle.pool.specs.Seats.{IsSeatOf, seats_of};

use crate::asserts::{holds, is_equal};
use pool::{HoleKind, Left, Offer, Pool, PoolSeat};
use std::alloc::{AllocError, Global};
use std::process::Abort;
use std::thread;

/// A pool with one seat.
fn alone(alloc: Global) -> Result<(Pool, PoolSeat), AllocError>
    ensures { IfOk result (λ r. IsSeatOf r.0 r.1 × (seats_of r.0 ≡ 1)) }
{
    let (pool, mut seats) = Pool::new(alloc, 1)?;
    let Some(seat) = seats.pop() else {
        unreachable!()
    };
    Ok((pool, seat))
}

fn close_alone(alloc: Global, pool: Pool, seat: PoolSeat) -> Result<Left, AllocError>
    requires seat { IsSeatOf pool seat }
    requires all { seats_of pool ≡ 1 }
{
    let mut seats = Vec::new(alloc);
    seats.push(seat)?;
    Ok(pool.close(seats))
}

/// A leaf of this class is taken in.
fn is_offered(rt: &impl Abort, pool: &Pool, seat: &mut PoolSeat, class: u8, number: u64)
    requires seat { IsSeatOf pool.now seat.old }
    requires class { class < 3 }
    requires number { 0 < number }
    ensures { IsSeatOf pool.now seat.new }
{
    is_equal(
        rt,
        pool.offer(seat, HoleKind::Leaf, class, number),
        Offer::Offered,
    );
}

/// A take of this kind returns this number, or none.
fn gives(rt: &impl Abort, pool: &Pool, seat: &mut PoolSeat, kind: HoleKind, number: Option<u64>)
    requires { IsSeatOf pool.now seat.old }
    ensures { IsSeatOf pool.now seat.new }
{
    is_equal(rt, pool.take(seat, kind), number);
}

/// Returns true if nothing lies in a hole.
fn is_empty(left: &Left) -> bool {
    left.holes.iter().all(|number| *number == 0)
}

/// Four leaves of three classes are taken in.
fn offer_four(rt: &impl Abort, pool: &Pool, seat: &mut PoolSeat)
    requires { IsSeatOf pool.now seat.old }
    ensures { IsSeatOf pool.now seat.new }
{
    is_offered(rt, pool, seat, 1, 5);
    is_offered(rt, pool, seat, 2, 6);
    is_offered(rt, pool, seat, 0, 7);
    is_offered(rt, pool, seat, 1, 8);
}

/// The four leaves are taken by class, and for control there is nothing.
fn take_four(rt: &impl Abort, pool: &Pool, seat: &mut PoolSeat)
    requires { IsSeatOf pool.now seat.old }
    ensures { IsSeatOf pool.now seat.new }
{
    gives(rt, pool, seat, HoleKind::Control, None);
    gives(rt, pool, seat, HoleKind::Leaf, Some(6));
    gives(rt, pool, seat, HoleKind::Leaf, Some(5));
    gives(rt, pool, seat, HoleKind::Leaf, Some(8));
    gives(rt, pool, seat, HoleKind::Leaf, Some(7));
    gives(rt, pool, seat, HoleKind::Leaf, None);
}

#[test]
fn takes_the_highest_class_first(rt: HostRuntime) {
    let (pool, mut seat) = alone(rt.alloc()).expect(&rt, "memory");
    offer_four(&rt, &pool, &mut seat);
    take_four(&rt, &pool, &mut seat);
    let left = close_alone(rt.alloc(), pool, seat).expect(&rt, "memory");
    holds(&rt, is_empty(&left));
}

/// Offers 1 to 16, and says how many were taken in.
fn fill(pool: &Pool, seat: &mut PoolSeat) -> u32
    requires { IsSeatOf pool.now seat.old }
    ensures { IsSeatOf pool.now seat.new }
{
    let mut count = 0;
    for number in 1..17u64 {
        if pool.offer(seat, HoleKind::Leaf, 1, number) == Offer::Offered {
            count += 1;
        }
    }
    count
}

/// The class is full after sixteen, and the seventeenth comes back.
fn fill_past(rt: &impl Abort, pool: &Pool, seat: &mut PoolSeat)
    requires { IsSeatOf pool.now seat.old }
    ensures { IsSeatOf pool.now seat.new }
{
    is_equal(rt, fill(pool, seat), 16);
    is_equal(rt, pool.offer(seat, HoleKind::Leaf, 1, 17), Offer::Full(17));
}

/// The contents of a hole where one class is full.
fn wanted_in(place: usize) -> u64 {
    if 64 <= place && place < 80 {
        place as u64 - 63
    } else {
        0
    }
}

/// The sixteen lie in the holes of their class, and nothing in another.
fn has_sixteen(rt: &impl Abort, left: &Left) {
    for (place, number) in left.holes.iter().enumerate() {
        is_equal(rt, (place, *number), (place, wanted_in(place)));
    }
}

#[test]
fn hands_the_seventeenth_back(rt: HostRuntime) {
    let (pool, mut seat) = alone(rt.alloc()).expect(&rt, "memory");
    fill_past(&rt, &pool, &mut seat);
    let left = close_alone(rt.alloc(), pool, seat).expect(&rt, "memory");
    has_sixteen(&rt, &left);
}

/// What one thread has: its seat, where its own numbers begin, and its numbers that were taken in, and those that it
/// took, 0 for none.
#[derive(Drop)]
struct ThreadSeat {
    seat: PoolSeat,
    first: u32,
    offered: [u64; 1000],
    taken: [u64; 1000],
}

/// Offers 1,000 numbers to either kind in turn and to each class, and takes 1,000 times leaves alone.
fn work(pool: &Pool, hand: &mut ThreadSeat)
    requires { IsSeatOf pool.now hand.old.seat }
    ensures { IsSeatOf pool.now hand.new.seat }
{
    for turn in 0..1000usize {
        let kind = if turn % 2 == 0 {
            HoleKind::Leaf
        } else {
            HoleKind::Control
        };
        let number = u64::from(hand.first) + turn as u64 + 1;
        if pool.offer(&mut hand.seat, kind, (turn % 3) as u8, number) == Offer::Offered {
            hand.offered[turn] = number;
        }
        if let Some(number) = pool.take(&mut hand.seat, HoleKind::Leaf) {
            hand.taken[turn] = number;
        }
    }
}

fn hands_of(
    alloc: Global,
    pool: &Pool,
    mut seats: Vec<PoolSeat>,
) -> Result<Vec<ThreadSeat>, AllocError>
    requires { All (IsSeatOf pool.now) seats.items }
    ensures count { IfOk result (λ v. vec_len v ≡ vec_len seats) }
    ensures each { IfOk result (λ v. All (λ h. IsSeatOf pool.now h.seat) v.items) }
{
    let mut hands = Vec::new(alloc);
    let mut first = 0u32;
    while let Some(seat) = seats.pop() {
        hands.push(ThreadSeat {
            seat,
            first,
            offered: [0; 1000],
            taken: [0; 1000],
        })?;
        first = first.wrapping_add(1000);
    }
    Ok(hands)
}

fn add_numbers(all: &mut Vec<u64>, numbers: &[u64]) -> Result<(), AllocError> {
    for number in numbers {
        if *number != 0 {
            all.push(*number)?;
        }
    }
    Ok(())
}

/// Adds what a hand offered and took to the lists.
fn add_hand(
    hand: &ThreadSeat,
    offered: &mut Vec<u64>,
    taken: &mut Vec<u64>,
) -> Result<(), AllocError> {
    add_numbers(offered, hand.offered.as_slice())?;
    add_numbers(taken, hand.taken.as_slice())
}

/// The seats of the hands, whose numbers are added to the lists.
fn seats_back(
    alloc: Global,
    pool: &Pool,
    mut hands: Vec<ThreadSeat>,
    offered: &mut Vec<u64>,
    taken: &mut Vec<u64>,
) -> Result<Vec<PoolSeat>, AllocError>
    requires { All (λ h. IsSeatOf pool.now h.seat) hands.items }
    ensures count { IfOk result (λ v. vec_len v ≡ vec_len hands) }
    ensures each { IfOk result (λ v. All (IsSeatOf pool.now) v.items) }
{
    let mut seats = Vec::new(alloc);
    while let Some(hand) = hands.pop() {
        add_hand(&hand, offered, taken)?;
        seats.push(hand.seat)?;
    }
    Ok(seats)
}

/// Adds what the hands offered and took to the lists, and what lies in the closed pool to what was taken.
fn add_all(
    alloc: Global,
    pool: Pool,
    hands: Vec<ThreadSeat>,
    offered: &mut Vec<u64>,
    taken: &mut Vec<u64>,
) -> Result<(), AllocError>
    requires each { All (λ h. IsSeatOf pool h.seat) hands.items }
    requires all { vec_len hands ≡ seats_of pool }
{
    let seats = seats_back(alloc, &pool, hands, offered, taken)?;
    let left = pool.close(seats);
    add_numbers(taken, left.holes.as_slice())
}

/// Returns true if each number is greater than the one before.
fn rises(numbers: &[u64]) -> bool {
    numbers.windows(2).all(|pair| pair[0] < pair[1])
}

/// At least 2,000 numbers were taken in, none twice, and each came out once.
fn balances(rt: &impl Abort, offered: &[u64], taken: &[u64]) {
    holds(rt, offered.len() >= 2000);
    holds(rt, rises(offered));
    is_equal(rt, offered, taken);
}

/// Sorts both lists.
fn sort_both(offered: &mut Vec<u64>, taken: &mut Vec<u64>) -> Result<(), AllocError> {
    offered.sort()?;
    taken.sort()
}

/// Each offered number was taken from the pool once.
fn is_balanced(rt: &impl Abort, alloc: Global, pool: Pool, hands: Vec<ThreadSeat>)
    requires each { All (λ h. IsSeatOf pool h.seat) hands.items }
    requires all { vec_len hands ≡ seats_of pool }
{
    let mut offered = Vec::new(alloc);
    let mut taken = Vec::new(alloc);
    add_all(alloc, pool, hands, &mut offered, &mut taken).expect(rt, "memory");
    sort_both(&mut offered, &mut taken).expect(rt, "memory");
    balances(rt, offered.as_slice(), taken.as_slice());
}

#[test]
fn balances_four_threads(rt: HostRuntime) {
    let (pool, seats) = Pool::new(rt.alloc(), 4).expect(&rt, "memory");
    let mut hands = hands_of(rt.alloc(), &pool, seats).expect(&rt, "memory");
    thread::for_each_mut(&rt, hands.as_mut_slice(), 4, &|_, hand| work(&pool, hand));
    is_balanced(&rt, rt.alloc(), pool, hands);
}
