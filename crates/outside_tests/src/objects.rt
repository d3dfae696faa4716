// The objects in memory, whose calls fail where they are told to, and succeed elsewhere.
use std::alloc::{AllocError, Global};
use std::process::Abort;
use std::test::Fail;
use tor_edge::{FetchFault, Files, Held, List, MemFiles, MemSink, Name, PutFault, Trip, put_text};

fn held(alloc: Global, name: &str, bytes: &[u8]) -> Result<Held, AllocError> {
    Ok(Held {
        name: Name::of(alloc, name)?,
        bytes: List::from_slice(alloc, bytes)?,
    })
}

fn fails<F: Files>(rt: &impl Abort, alloc: Global, files: &mut F, name: &str) {
    assert!(rt; matches!(files.fetch(alloc, name), Err(FetchFault::Failed)));
}

#[test]
fn a_fetch_of_a_trip_fails_alone(rt: HostRuntime) -> Result<(), Fail> {
    let alloc = rt.alloc();
    let mut files = List::new(alloc);
    files.push(held(alloc, "a", b"first")?)?;
    files.push(held(alloc, "a", b"second")?)?;
    let mut files = MemFiles::new(files, List::from_slice(alloc, &[0])?);
    fails(&rt, alloc, &mut files, "a");
    assert_eq!(rt; files.fetch(alloc, "a")?.as_slice(), b"first".as_slice());
    fails(&rt, alloc, &mut files, "b");
    Ok(())
}

#[test]
fn a_put_of_a_trip_keeps_its_bytes_and_fails_alone(rt: HostRuntime) -> Result<(), Fail> {
    let alloc = rt.alloc();
    let trips = List::from_slice(alloc, &[Trip { call: 1, keep: 3 }])?;
    let mut sink = MemSink::new(alloc, 12, trips)?;
    put_text(&mut sink, "one ")?;
    assert_eq!(rt; put_text(&mut sink, "second "), Err(PutFault::Failed));
    put_text(&mut sink, " th")?;
    assert_eq!(rt; put_text(&mut sink, "ird"), Err(PutFault::Failed));
    assert_eq!(rt; sink.written(), b"one sec thir".as_slice());
    Ok(())
}
