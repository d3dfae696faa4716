ghost use Rattle.std.specs.Prelude.{◌≡◌, ◌<◌, ◌≤◌, [], None, length, IfOk, IfSome};
ghost use Rattle.std.specs.Option.{unwrap_or};
ghost use Rattle.tor_edge.specs.Fetch.{OnTooLong};

use crate::fetches::Fetches;
use crate::{FetchFault, Files, List, MAX_FILE_BYTES, Name};
use std::alloc::Global;
use std::io::{Input, Read};
use std::{fs, rt};

/// The name of standard input.
const STANDARD_INPUT: &str = "-";

/// How many bytes one turn of reading takes at most.
const CHUNK: usize = 16_384;

/// The files of the system, and standard input under the name `-`. They tell no contents.
#[derive(Debug, Drop)]
pub struct OsFiles<R> {
    runtime: R,
    fetches: Fetches,
}

impl<R: rt::Files + Input> OsFiles<R> {
    pub fn new(runtime: R) -> OsFiles<R>
        ensures contents { ⟦<OsFiles<R> as Files>⟧.contents result ≡ None }
        ensures faults { ⟦<OsFiles<R> as Files>⟧.faults result ≡ 0 }
        ensures too_long { ⟦<OsFiles<R> as Files>⟧.too_long result ≡ 0 }
        ensures fetched { ⟦<OsFiles<R> as Files>⟧.fetched result ≡ [] }
        ensures refused { ⟦<OsFiles<R> as Files>⟧.refused result ≡ None }
    {
        OsFiles {
            runtime,
            fetches: Fetches::new(),
        }
    }
}

impl<R: rt::Files + Input> Files for OsFiles<R> {
    ghost faults = { λ files. files.fetches.faults };

    ghost too_long = { λ files. files.fetches.too_long };

    ghost refused = { λ files. files.fetches.refused };

    ghost fetched = { λ files. unwrap_or files.fetches.names [] };

    ghost contents = { λ _. None };

    fn fetch(&mut self, alloc: Global, name: &str) -> Result<List<u8>, FetchFault> {
        let asked = self.fetches.begin(alloc, name)?;
        let answer = read_named(alloc, &self.runtime, name);
        self.fetches.end(asked, &answer);
        answer
    }
}

fn read_named<R: rt::Files + Input>(
    alloc: Global,
    runtime: &R,
    name: &str,
) -> Result<List<u8>, FetchFault>
    ensures { IfOk result (λ bytes. length bytes ≤ MAX_FILE_BYTES) }
{
    if name == STANDARD_INPUT {
        return read_whole(alloc, &mut runtime.reader());
    }
    match fs::open(runtime, name) {
        Ok(mut file) => read_whole(alloc, &mut file),
        Err(_) => Err(FetchFault::Failed),
    }
}

/// Reads to the end in turns, each of which takes a byte or more, and stops at the first byte past the limit.
fn read_whole<R: Read>(alloc: Global, reader: &mut R) -> Result<List<u8>, FetchFault>
    ensures within { IfOk result (λ bytes. length bytes ≤ MAX_FILE_BYTES) }
    ensures all { IfOk result (λ bytes. IfSome (R.remaining reader.old) (λ file. bytes ≡ file)) }
    ensures found_too_long { OnTooLong result (IfSome (R.remaining reader.old) (λ file. MAX_FILE_BYTES < length file)) }
{
    let mut bytes = Vec::new(alloc);
    let mut chunk = [0; CHUNK];
    while bytes.len() <= MAX_FILE_BYTES {
        let wanted = CHUNK.min(MAX_FILE_BYTES + 1 - bytes.len());
        match reader.read(&mut chunk[..wanted]) {
            Ok(0) => return Ok(List::from_vec(bytes)),
            Ok(taken) => bytes.extend_from_slice(&chunk[..taken])?,
            Err(_) => return Err(FetchFault::Failed),
        }
    }
    Err(FetchFault::TooLong)
}
