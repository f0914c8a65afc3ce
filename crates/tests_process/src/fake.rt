//! A machine in memory.
ghost use Rattle.std.specs.Prelude.{◌≡◌, [], ◌≤◌, length, IfSome};

use host::identity::Identity;
use host::record::{
    ARGUMENT, BEGAN, BROKEN, EMPTIED, ERROR, FAILED, FOLLOWED, GOT, KNOWN, LAST_ARGUMENT,
    LED_NOWHERE, LED_TO, NAMED, OPENED, OUT, PUT, REMOVED, Record, UNOPENED, note_found,
};
use host::{CommandLineError, Host, HostError, Stream};
use std::alloc::{AllocError, Global};

/// A name of a file. A name that is a link leads to another one.
#[derive(Drop)]
struct Entry {
    name: String,
    file: usize,
    target: Option<String>,
}

/// A machine in memory. It reads and writes at most `at_once` bytes at once, and refuses the call that has the number `refused`.
#[derive(Drop)]
pub struct FakeHost {
    alloc: Global,
    words: Vec<String>,
    told: usize,
    entries: Vec<Entry>,
    files: Vec<Vec<u8>>,
    out: Option<usize>,
    error: Option<usize>,
    input: Option<usize>,
    place: usize,
    output: Option<usize>,
    at_once: usize,
    calls: u64,
    refused: u64,
    log: Record,
}

impl FakeHost {
    ghost use Rattle.tests_process.specs.Fakes.{events_of};

    pub fn new(alloc: Global, words: Vec<String>, at_once: usize, refused: u64) -> FakeHost
        ensures { events_of result ≡ [] }
    {
        FakeHost {
            alloc,
            words,
            told: 0,
            entries: Vec::new(alloc),
            files: Vec::new(alloc),
            out: None,
            error: None,
            input: None,
            place: 0,
            output: None,
            at_once,
            calls: 0,
            refused,
            log: Record::new(),
        }
    }

    /// Adds a file of this name and these bytes. The answer is its number.
    pub fn add(&mut self, name: &str, bytes: &[u8]) -> Result<usize, AllocError>
        ensures { events_of self.new ≡ events_of self.old }
    {
        let file = self.files.len();
        self.files.push(bytes.to_vec(self.alloc)?)?;
        self.link(name, file)?;
        Ok(file)
    }

    /// Gives a file one more name.
    pub fn link(&mut self, name: &str, file: usize) -> Result<(), AllocError>
        ensures { events_of self.new ≡ events_of self.old }
    {
        let name = String::from_str(self.alloc, name)?;
        self.entries.push(Entry {
            name,
            file,
            target: None,
        })?;
        Ok(())
    }

    /// Makes a name a link to another, which has this file.
    pub fn lead(&mut self, name: &str, target: &str, file: usize) -> Result<(), AllocError>
        ensures { events_of self.new ≡ events_of self.old }
    {
        let name = String::from_str(self.alloc, name)?;
        let target = String::from_str(self.alloc, target)?;
        self.entries.push(Entry {
            name,
            file,
            target: Some(target),
        })?;
        Ok(())
    }

    /// The next word.
    fn word(&self) -> Result<Option<String>, CommandLineError> {
        let Some(word) = self.words.as_slice().get(self.told) else {
            return Ok(None);
        };
        match String::from_str(self.alloc, word.as_str()) {
            Ok(copy) => Ok(Some(copy)),
            Err(AllocError) => Err(CommandLineError::Memory),
        }
    }

    /// The name that a name leads to, if any.
    fn led_to(&self, name: &str) -> Result<Option<String>, AllocError> {
        let Some(place) = self.entry(name) else {
            return Ok(None);
        };
        let Some(entry) = self.entries.get(place) else {
            return Ok(None);
        };
        let found = match &entry.target {
            Some(target) => target.as_str(),
            None => name,
        };
        Ok(Some(String::from_str(self.alloc, found)?))
    }

    /// Makes the streams these files.
    pub fn redirect(&mut self, out: Option<usize>, error: Option<usize>)
        ensures { events_of self.new ≡ events_of self.old }
    {
        self.out = out;
        self.error = error;
    }

    /// The bytes of the file of this name.
    pub fn bytes(&self, name: &str) -> Option<&[u8]> {
        let file = self.file(name)?;
        let bytes = self.files.get(file)?;
        Some(bytes.as_slice())
    }

    /// Returns true if the file of this name begins so.
    pub fn begins(&self, name: &str, start: &[u8]) -> bool {
        match self.bytes(name) {
            Some(bytes) => bytes.starts_with(start),
            None => false,
        }
    }

    /// The file of this name.
    fn file(&self, name: &str) -> Option<usize> {
        let place = self.entry(name)?;
        let entry = self.entries.get(place)?;
        Some(entry.file)
    }

    fn entry(&self, name: &str) -> Option<usize> {
        self.entries
            .iter()
            .position(|entry| entry.name.as_str() == name)
    }

    /// Counts a call, and says whether it is done.
    fn is_done(&mut self) -> bool
        ensures { events_of self.new ≡ events_of self.old }
    {
        self.calls = self.calls.saturating_add(1);
        self.calls != self.refused
    }

    /// Appends a prefix of the piece to the output.
    fn append(&mut self, piece: &[u8]) -> Option<usize>
        ensures within { IfSome result (λ n. n ≤ length piece.now) }
        ensures same { events_of self.new ≡ events_of self.old }
    {
        let n = piece.len().min(self.at_once);
        let output = self.output?;
        let file = self.files.get_mut(output)?;
        match file.extend_from_slice(&piece[..n]) {
            Ok(()) => Some(n),
            Err(AllocError) => None,
        }
    }

    /// Reads some bytes of the input.
    fn take(&mut self, buffer: &mut [u8]) -> Option<usize>
        ensures within { IfSome result (λ n. n ≤ length buffer.new) }
        ensures same { events_of self.new ≡ events_of self.old }
    {
        let bytes = self.files.get(self.input?)?;
        let rest = bytes.as_slice().get(self.place..)?;
        let n = rest.len().min(buffer.len()).min(self.at_once);
        buffer[..n].copy_from_slice(&rest[..n]);
        self.place = self.place.saturating_add(n);
        Some(n)
    }
}

fn identity_of(file: Option<usize>) -> Option<Identity> {
    let number = file?;
    Some(Identity {
        device: 1,
        number: number as u64,
        regular: true,
    })
}

impl Host for FakeHost {
    ghost use Rattle.tests_process.specs.Fakes.{events_of};

    ghost history = { λ fake. events_of fake };

    fn argument(&mut self) -> Result<Option<String>, CommandLineError> {
        match self.word() {
            Ok(Some(word)) => {
                self.told = self.told.saturating_add(1);
                self.log.note(&[ARGUMENT], word.as_bytes());
                Ok(Some(word))
            }
            Ok(None) => {
                self.log.note(&[LAST_ARGUMENT], &[]);
                Ok(None)
            }
            Err(fault) => {
                self.log.note(&[FAILED], &[]);
                Err(fault)
            }
        }
    }

    fn real_name(&mut self, name: &str) -> Result<Option<String>, AllocError> {
        match self.led_to(name) {
            Ok(Some(found)) => {
                self.log.note(&[FOLLOWED], name.as_bytes());
                self.log.note(&[LED_TO], found.as_bytes());
                Ok(Some(found))
            }
            Ok(None) => {
                self.log.note(&[FOLLOWED], name.as_bytes());
                self.log.note(&[LED_NOWHERE], &[]);
                Ok(None)
            }
            Err(AllocError) => {
                self.log.note(&[FAILED], &[]);
                Err(AllocError)
            }
        }
    }

    fn identity(&mut self, name: &str) -> Result<Option<Identity>, HostError> {
        if !self.is_done() {
            self.log.note(&[FAILED], &[]);
            return Err(HostError);
        }
        let found = identity_of(self.file(name));
        note_found(&mut self.log, NAMED, found, name.as_bytes());
        Ok(found)
    }

    fn stream_identity(&mut self, stream: Stream) -> Result<Option<Identity>, HostError> {
        if !self.is_done() {
            self.log.note(&[FAILED], &[]);
            return Err(HostError);
        }
        match stream {
            Stream::Out => {
                let found = identity_of(self.out);
                note_found(&mut self.log, OUT, found, &[]);
                Ok(found)
            }
            Stream::Error => {
                let found = identity_of(self.error);
                note_found(&mut self.log, ERROR, found, &[]);
                Ok(found)
            }
        }
    }

    fn open(&mut self, name: &str) -> Result<(), HostError> {
        let found = self.file(name);
        if self.is_done() && found.is_some() {
            self.input = found;
            self.place = 0;
            self.log.note(&[OPENED], name.as_bytes());
            return Ok(());
        }
        self.log.note(&[UNOPENED], name.as_bytes());
        Err(HostError)
    }

    fn input_identity(&mut self) -> Result<Identity, HostError> {
        let found = identity_of(self.input);
        if self.is_done() {
            if let Some(file) = found {
                note_found(&mut self.log, KNOWN, Some(file), &[]);
                return Ok(file);
            }
        }
        self.log.note(&[BROKEN], &[]);
        Err(HostError)
    }

    fn read(&mut self, buffer: &mut [u8]) -> Result<usize, HostError> {
        if self.is_done() {
            if let Some(n) = self.take(buffer) {
                self.log.note(&[GOT], &buffer[..n]);
                return Ok(n);
            }
        }
        self.log.note(&[BROKEN], &[]);
        Err(HostError)
    }

    fn begin(&mut self, name: &str) -> Result<(), HostError> {
        if self.is_done() && self.file(name).is_none() {
            if let Ok(file) = self.add(name, &[]) {
                self.output = Some(file);
                self.log.note(&[BEGAN], name.as_bytes());
                return Ok(());
            }
        }
        self.log.note(&[FAILED], &[]);
        Err(HostError)
    }

    fn empty(&mut self, name: &str) -> Result<(), HostError> {
        let found = self.file(name);
        if self.is_done() && found.is_some() {
            self.output = found;
            self.log.note(&[EMPTIED], name.as_bytes());
            return Ok(());
        }
        self.log.note(&[FAILED], &[]);
        Err(HostError)
    }

    fn put(&mut self, piece: &[u8]) -> Result<usize, HostError> {
        if self.is_done() {
            if let Some(n) = self.append(piece) {
                self.log.note(&[PUT], &piece[..n]);
                return Ok(n);
            }
        }
        self.log.note(&[FAILED], &[]);
        Err(HostError)
    }

    fn rename(&mut self, before: &str, name: &str) -> Result<(), HostError> {
        if self.is_done() {
            if let Some(file) = self.file(before) {
                if let Some(old) = self.entry(name) {
                    drop_entry(&mut self.entries, old);
                }
                if let Some(old) = self.entry(before) {
                    drop_entry(&mut self.entries, old);
                }
                if self.link(name, file).is_ok() {
                    self.log.note_two(before.as_bytes(), name.as_bytes());
                    return Ok(());
                }
            }
        }
        self.log.note(&[FAILED], &[]);
        Err(HostError)
    }

    fn remove(&mut self, name: &str) -> Result<(), HostError> {
        if self.is_done() {
            if let Some(old) = self.entry(name) {
                drop_entry(&mut self.entries, old);
                self.log.note(&[REMOVED], name.as_bytes());
                return Ok(());
            }
        }
        self.log.note(&[FAILED], &[]);
        Err(HostError)
    }
}

fn drop_entry(entries: &mut Vec<Entry>, place: usize) {
    if place < entries.len() {
        drop(entries.remove(place));
    }
}
