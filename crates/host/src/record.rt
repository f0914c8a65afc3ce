//! A record of calls that exists in contracts only.
//!
//! A real machine keeps a `Record`, and notes each call with its result. The record occupies no memory and does not
//! exist at run time. The three functions that change it are proved by hand from its ownership. No other function may
//! do so, since such a proof could set the record to anything.
ghost use Rattle.std.specs.Prelude.{◌≡◌, List, [], ◌∷◌};
ghost use Rattle.std.specs.Borrow.{ftrue};
ghost use Rattle.host.specs.Events.{Event};
ghost use Rattle.host.specs.Notes.{event_at, event_of, two_names};

use crate::identity::Identity;
use std::marker::{Model, PhantomData};

/// Numbers of the calls, as in `event_at`.
pub const NAMED: u64 = 0;

pub const OUT: u64 = 1;

pub const ERROR: u64 = 2;

pub const OPENED: u64 = 3;

pub const KNOWN: u64 = 4;

pub const GOT: u64 = 5;

pub const UNOPENED: u64 = 6;

pub const BROKEN: u64 = 7;

pub const BEGAN: u64 = 8;

pub const EMPTIED: u64 = 9;

pub const PUT: u64 = 10;

pub const REMOVED: u64 = 11;

pub const FAILED: u64 = 12;

pub const ARGUMENT: u64 = 13;

pub const LAST_ARGUMENT: u64 = 14;

pub const FOLLOWED: u64 = 15;

pub const LED_TO: u64 = 16;

pub const LED_NOWHERE: u64 = 17;

/// The calls so far, the newest first.
#[derive(Drop)]
pub struct Record {
    marker: PhantomData<u8>,
    pub ghost events: { List Event },
}

impl Model for Record {
    ghost also_owns = { λ _. ftrue };
}

impl Record {
    /// Creates an empty record.
    pub fn new() -> Record
        ensures { result.events ≡ [] }
    {
        Record {
            marker: PhantomData,
        }
    }

    /// Notes a call. The first number identifies the call. If the call found a file, the next numbers are 1, its
    /// device, its number, and 1 if it is regular. Otherwise the second number is 0.
    pub fn note(&mut self, _numbers: &[u64], _bytes: &[u8])
        ensures { self.new.events ≡ event_of _numbers.now _bytes.now ∷ self.old.events }
    {}

    /// Notes that the file `_before` was renamed to `_name`.
    pub fn note_two(&mut self, _before: &[u8], _name: &[u8])
        ensures { self.new.events ≡ two_names _before.now _name.now ∷ self.old.events }
    {}
}

/// Notes a call with the file that it found.
pub fn note_found(log: &mut Record, call: u64, found: Option<Identity>, name: &[u8])
    ensures { log.new.events ≡ event_at call found name.now ∷ log.old.events }
{
    match found {
        Some(file) => {
            if file.regular {
                log.note(&[call, 1, file.device, file.number, 1], name)
            } else {
                log.note(&[call, 1, file.device, file.number, 0], name)
            }
        }
        None => log.note(&[call, 0, 0, 0, 0], name),
    }
}
