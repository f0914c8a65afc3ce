//! The offers, draws and losses of one thread.

ghost use Rattle.std.specs.Prelude.{◌≡◌, ◌+◌, ◌<◌, IfOk};
ghost use Rattle.pool.specs.Seats.{IsSeatOf};

use crate::asserts::is_equal;
use pool::offers::{Offers, ReadyItem};
use pool::{HoleKind, Pool};
use std::alloc::{AllocError, Global};
use std::process::Abort;

/// A pool with one seat, and what is offered and drawn by it.
fn alone(alloc: Global) -> Result<(Pool, Offers), AllocError>
    ensures { IfOk result (λ r. IsSeatOf r.0 r.1.seat × (r.1.offered + r.1.full + r.1.lost + r.1.pending ≡ 0)) }
{
    let (pool, mut seats) = Pool::new(alloc, 1)?;
    let Some(seat) = seats.pop() else {
        unreachable!()
    };
    Ok((pool, Offers::new(alloc, seat)))
}

/// A leaf of the middle class.
fn leaf(number: u64) -> ReadyItem
    requires { 0 < number }
{
    ReadyItem {
        side: HoleKind::Leaf,
        class: 1,
        number,
    }
}

/// Three leaves came, and two of them are listed.
fn list_two(offers: &mut Offers) -> Result<(), AllocError>
    requires { offers.old.offered + offers.old.full + offers.old.lost + offers.old.pending ≡ 0 }
    ensures { offers.new.seat ≡ offers.old.seat }
{
    offers.pending = 3;
    offers.list.push(leaf(5))?;
    offers.list.push(leaf(6))?;
    Ok(())
}

/// Two of three are offered, one is lost, and the two are drawn by those whom they are for.
fn offer_and_draw(rt: &impl Abort, pool: &Pool, offers: &mut Offers)
    requires { IsSeatOf pool.now offers.old.seat }
{
    offers.offer_all(pool);
    is_equal(
        rt,
        (offers.offered, offers.full, offers.lost, offers.pending),
        (2, 0, 1, 0),
    );
    is_equal(rt, offers.draw(pool, HoleKind::Control), None);
    is_equal(rt, offers.draw(pool, HoleKind::Leaf), Some(6));
    is_equal(rt, offers.draw(pool, HoleKind::Leaf), Some(5));
    is_equal(rt, offers.draw(pool, HoleKind::Leaf), None);
    is_equal(rt, offers.drawn, 2);
}

#[test]
fn offers_what_is_listed(rt: HostRuntime) {
    let (pool, mut offers) = alone(rt.alloc()).expect(&rt, "memory");
    list_two(&mut offers).expect(&rt, "memory");
    offer_and_draw(&rt, &pool, &mut offers);
}
