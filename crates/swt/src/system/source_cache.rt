//! Cache of the files that were read, for explanations.

use explain_all::explain::all_explained;
use explain_json::json::{json_lines, warning_lines};
use explain_warnings::render;
use std::alloc::AllocError;
use std::io::Write;
use swt_arguments::line::Line;
use swt_arguments::request::Request;

/// Which files are kept.
#[derive(Clone, Copy, PartialEq, Eq, Debug, Drop)]
enum CachePolicy {
    Nothing,
    /// One file at a time. Before the next is opened, the refusal or the warnings of the last are reported.
    Each,
    All,
}

impl CachePolicy {
    /// Returns the policy for a request: the files that may have to be explained, or whose warnings are denied.
    fn by(request: &Request) -> CachePolicy {
        if !request.explain && !request.json && !request.deny {
            return CachePolicy::Nothing;
        }
        match &request.line {
            Line::Check { .. } => CachePolicy::Each,
            _ => CachePolicy::All,
        }
    }
}

/// A file: its name, and its bytes, or `None` if it could not be read.
#[derive(Drop)]
struct SourceFile {
    name: String,
    bytes: Option<Vec<u8>>,
}

/// The files that were read.
#[derive(Drop)]
pub struct SourceCache<'r> {
    rt: &'r HostRuntime,
    wanted: CachePolicy,
    /// Whether refusals and other ends are explained.
    explain: bool,
    /// Whether refusals and warnings are reported as JSON.
    json: bool,
    sources: Vec<SourceFile>,
    /// The number of files that were opened.
    opened: usize,
    /// The number of files that were reported as accepted.
    accepted: usize,
    /// Whether an allocation failed, for a file or for a report about it.
    lacks: bool,
}

impl<'r> SourceCache<'r> {
    /// Creates an empty cache that keeps no files.
    pub fn new(rt: &'r HostRuntime) -> SourceCache<'r> {
        SourceCache {
            rt,
            wanted: CachePolicy::Nothing,
            explain: false,
            json: false,
            sources: Vec::new(rt.alloc()),
            opened: 0,
            accepted: 0,
            lacks: false,
        }
    }

    /// Sets which files are kept for this request.
    pub fn want(&mut self, request: &Request) {
        self.wanted = CachePolicy::by(request);
        self.explain = request.explain;
        self.json = request.json;
    }

    /// Returns the runtime, which has standard error.
    pub fn runtime(&self) -> &'r HostRuntime {
        self.rt
    }

    /// Returns true if the end of a command is explained as text.
    pub fn tells_text(&self) -> bool {
        self.explain && !self.json
    }

    /// Returns the name of the last file if it could not be read.
    pub fn unread(&self) -> Option<&str> {
        let source = self.sources.as_slice().last()?;
        match &source.bytes {
            Some(_) => None,
            None => Some(source.name.as_str()),
        }
    }

    /// Returns the number of files that were opened.
    pub fn opened(&self) -> usize {
        self.opened
    }

    /// Returns the number of files that were reported as accepted.
    pub fn accepted(&self) -> usize {
        self.accepted
    }

    /// Returns true if an allocation failed.
    pub fn lacks(&self) -> bool {
        self.lacks
    }

    /// Returns the name and the bytes of the first file, if it could be read.
    pub fn first(&self) -> Option<(&str, &[u8])> {
        let source = self.sources.as_slice().first()?;
        match &source.bytes {
            Some(bytes) => Some((source.name.as_str(), bytes.as_slice())),
            None => None,
        }
    }

    /// Returns the bytes of the second file, if it exists and could be read.
    pub fn second(&self) -> Option<&[u8]> {
        let source = self.sources.as_slice().get(1)?;
        match &source.bytes {
            Some(bytes) => Some(bytes.as_slice()),
            None => None,
        }
    }

    /// Records that a file of this name is opened.
    pub fn begin(&mut self, name: &str) {
        if self.wanted == CachePolicy::Each {
            self.tell_checked();
        }
        self.opened = self.opened.saturating_add(1);
        if self.wanted != CachePolicy::Nothing && !self.lacks && self.add_source(name).is_err() {
            self.give_up();
        }
    }

    fn add_source(&mut self, name: &str) -> Result<(), AllocError> {
        let alloc = self.rt.alloc();
        let name = String::from_str(alloc, name)?;
        let bytes = Some(Vec::new(alloc));
        self.sources.push(SourceFile { name, bytes })?;
        Ok(())
    }

    /// Appends a piece to the bytes of the last file.
    pub fn add(&mut self, piece: &[u8]) {
        let refused = match self.sources.last_mut() {
            Some(
                SourceFile {
                    name: _,
                    bytes: Some(bytes),
                },
            ) => bytes.extend_from_slice(piece).is_err(),
            _ => false,
        };
        if refused {
            self.give_up();
        }
    }

    /// Records that the last file could not be read.
    pub fn lose(&mut self) {
        if let Some(source) = self.sources.last_mut() {
            source.bytes = None;
        }
    }

    fn give_up(&mut self) {
        self.sources.clear();
        self.lacks = true;
    }

    /// Reports the refusal or the warnings of the first file on standard error, and empties the cache.
    pub fn tell_checked(&mut self) {
        match self.told_checked() {
            Ok(true) => self.accepted = self.accepted.saturating_add(1),
            Ok(false) => {}
            Err(AllocError) => self.lacks = true,
        }
        self.sources.clear();
    }

    /// Reports the refusal or the warnings of the first file, and returns true if there is one that is accepted.
    fn told_checked(&self) -> Result<bool, AllocError> {
        match self.first() {
            Some((name, text)) if self.json => write_json(self.rt, name, text),
            Some((name, text)) => write_checked(self.rt, self.explain, name, text),
            None => Ok(false),
        }
    }
}

/// Reports the warnings of an accepted text on standard error, or its mistakes if refusals are explained. Returns
/// true if the text is accepted.
fn write_checked(
    rt: &HostRuntime,
    explain: bool,
    name: &str,
    text: &[u8],
) -> Result<bool, AllocError> {
    if let Some(mistakes) = all_explained(rt.alloc(), name, text)? {
        if explain {
            // If this cannot be written, the status is enough.
            let _ = rt.stderr().write_all(mistakes.as_slice());
        }
        return Ok(false);
    }
    let warnings = render::explained(rt.alloc(), name, text)?;
    let _ = rt.stderr().write_all(warnings.as_slice());
    Ok(true)
}

/// Reports the mistakes of a text on standard error, or its warnings if it is accepted, as lines of JSON. Returns
/// true if the text is accepted.
fn write_json(rt: &HostRuntime, name: &str, text: &[u8]) -> Result<bool, AllocError> {
    if let Some(mistakes) = json_lines(rt.alloc(), name, text)? {
        // If this cannot be written, the status is enough.
        let _ = rt.stderr().write_all(mistakes.as_slice());
        return Ok(false);
    }
    let lines = warning_lines(rt.alloc(), name, text)?;
    let _ = rt.stderr().write_all(lines.as_slice());
    Ok(true)
}
