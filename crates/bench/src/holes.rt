//! Times of the pool.

ghost use Rattle.std.specs.Prelude.{◌<◌};
ghost use Rattle.pool.specs.Seats.{IsSeatOf};

use pool::{HoleKind, Pool, PoolSeat};
use std::alloc::Global;
use std::io;
use std::time::{Clock, Instant};

const ROUNDS: u32 = 10_000_000;

/// Offers a number and takes one, `count` times. Returns the number of those taken.
fn count_taken(pool: &Pool, seat: &mut PoolSeat, class: u8) -> u64
    requires seat { IsSeatOf pool.now seat.old }
    requires class { class < 3 }
    ensures { IsSeatOf pool.now seat.new }
{
    let mut count = 0u64;
    for round in 0..ROUNDS {
        pool.offer(seat, HoleKind::Leaf, class, u64::from(round) + 1);
        if pool.take(seat, HoleKind::Leaf).is_some() {
            count = count.wrapping_add(1);
        }
    }
    count
}

/// Prints the time of one offer with one take of a class.
fn time_class(
    rt: &(impl Clock + Print),
    pool: &Pool,
    seat: &mut PoolSeat,
    class: u8,
) -> io::Result<()>
    requires seat { IsSeatOf pool.now seat.old }
    requires class { class < 3 }
    ensures { IsSeatOf pool.now seat.new }
{
    let start = Instant::now(rt)?;
    let taken = count_taken(pool, seat, class);
    let nanos = start.elapsed(rt)?.as_nanos() / u128::from(ROUNDS);
    println!(rt; "class {class}: {taken} taken, {nanos} nanoseconds each")
}

/// Prints the time of one offer with one take, on one thread, for each class from the highest on.
pub fn time(rt: &(impl Clock + Print), alloc: Global) -> io::Result<()> {
    let (pool, mut seats) = Pool::new(alloc, 1)?;
    let Some(mut seat) = seats.pop() else {
        unreachable!()
    };
    for class in (0..3u8).rev() {
        time_class(rt, &pool, &mut seat, class)?;
    }
    Ok(())
}
