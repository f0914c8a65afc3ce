//! A host that keeps the bytes it reads, for explanations.
ghost use Rattle.std.specs.Prelude.{◌≡◌, []};

use crate::explanations::ending::{CommandResult, explain_ending};
use crate::system::source_cache::SourceCache;
use host::identity::Identity;
use host::{CommandLineError, Host, HostError, Stream};
use host_system::system::System;
use std::alloc::AllocError;
use swt_arguments::request::Request;

/// The system, with a cache of the files that were read. If an allocation for the cache fails, the cache is dropped and
/// the calls still succeed.
#[derive(Drop)]
pub struct CachingHost<'r> {
    system: System<'r>,
    kept: SourceCache<'r>,
}

impl<'r> CachingHost<'r> {
    ghost use Rattle.swt.specs.Keepers.{events_of};

    /// Creates the host before its first call, with an empty cache.
    pub fn new(rt: &'r HostRuntime) -> CachingHost<'r>
        ensures { events_of result ≡ [] }
    {
        CachingHost {
            system: System::new(rt),
            kept: SourceCache::new(rt),
        }
    }

    /// Sets which files are kept for this request.
    pub fn want(&mut self, request: &Request)
        ensures { events_of self.new ≡ events_of self.old }
    {
        self.kept.want(request);
    }

    /// Explains the result of a command on standard error.
    pub fn explain(&mut self, ended: CommandResult<'_, '_, '_>)
        ensures { events_of self.new ≡ events_of self.old }
    {
        explain_ending(&mut self.kept, ended, self.system.reason());
    }
}

impl Host for CachingHost<'_> {
    ghost use Rattle.swt.specs.Keepers.{events_of};

    ghost history = { λ caching_host. events_of caching_host };

    fn argument(&mut self) -> Result<Option<String>, CommandLineError> {
        self.system.argument()
    }

    fn real_name(&mut self, name: &str) -> Result<Option<String>, AllocError> {
        self.system.real_name(name)
    }

    fn identity(&mut self, name: &str) -> Result<Option<Identity>, HostError> {
        self.system.identity(name)
    }

    fn stream_identity(&mut self, stream: Stream) -> Result<Option<Identity>, HostError> {
        self.system.stream_identity(stream)
    }

    fn open(&mut self, name: &str) -> Result<(), HostError> {
        self.kept.begin(name);
        match self.system.open(name) {
            Ok(()) => Ok(()),
            Err(HostError) => {
                self.kept.lose();
                Err(HostError)
            }
        }
    }

    fn input_identity(&mut self) -> Result<Identity, HostError> {
        match self.system.input_identity() {
            Ok(file) => Ok(file),
            Err(HostError) => {
                self.kept.lose();
                Err(HostError)
            }
        }
    }

    fn read(&mut self, buffer: &mut [u8]) -> Result<usize, HostError> {
        match self.system.read(buffer) {
            Ok(n) => {
                self.kept.add(&buffer[..n]);
                Ok(n)
            }
            Err(HostError) => {
                self.kept.lose();
                Err(HostError)
            }
        }
    }

    fn begin(&mut self, name: &str) -> Result<(), HostError> {
        self.system.begin(name)
    }

    fn empty(&mut self, name: &str) -> Result<(), HostError> {
        self.system.empty(name)
    }

    fn put(&mut self, piece: &[u8]) -> Result<usize, HostError> {
        self.system.put(piece)
    }

    fn rename(&mut self, before: &str, name: &str) -> Result<(), HostError> {
        self.system.rename(before, name)
    }

    fn remove(&mut self, name: &str) -> Result<(), HostError> {
        self.system.remove(name)
    }
}
