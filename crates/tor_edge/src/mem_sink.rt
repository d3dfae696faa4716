ghost use Rattle.std.specs.Prelude.{◌≡◌, ◌≢◌, ◌-◌, ◌≤◌, ◌↔◌, [], ◌++◌, Some, false, length, take, IfOk, IsOk, OnOk, OnErr, vec_len, vec_capacity};
ghost use Rattle.std.specs.Option.{option_copied};
ghost use Rattle.tor_edge.specs.Count.{Rose};
ghost use Rattle.tor_edge.specs.Written.{appended, AppendsPrefix};
ghost use Rattle.tor_edge.specs.Trips.{one_more, trip_of, kept_bytes, Succeeds};

use crate::{List, PutFault, Sink};
use std::alloc::{AllocError, Global};

/// The put of this number, from 0, keeps at most so many bytes and fails.
#[derive(Debug, Clone, Copy, PartialEq, Eq)]
pub struct Trip {
    pub call: u64,
    pub keep: u64,
}

/// A sink in memory, some of whose puts are made to fail.
#[derive(Debug, Drop)]
pub struct MemSink {
    bytes: Vec<u8>,
    room: usize,
    trips: List<Trip>,
    calls: u64,
    faults: u64,
    ghost within: { vec_len bytes ≤ room },
    ghost taken: { room ≤ vec_capacity bytes },
}

impl MemSink {
    /// Takes the memory for `room` bytes. What doesn't fit into it later is a fault. Of several trips of one put the first counts.
    pub fn new(alloc: Global, room: usize, trips: List<Trip>) -> Result<MemSink, AllocError>
        ensures written { IfOk result (λ sink. ⟦<MemSink as Sink>⟧.written sink ≡ Some []) }
        ensures faults { IfOk result (λ sink. ⟦<MemSink as Sink>⟧.faults sink ≡ 0) }
        ensures room { IfOk result (λ sink. sink.room ≡ room) }
        ensures trips { IfOk result (λ sink. sink.trips ≡ trips) }
        ensures calls { IfOk result (λ sink. sink.calls ≡ 0) }
    {
        Ok(MemSink {
            bytes: Vec::with_capacity(alloc, room)?,
            room,
            trips,
            calls: 0,
            faults: 0,
        })
    }

    /// The bytes that were kept.
    pub fn written(&self) -> &[u8]
        ensures { ⟦<MemSink as Sink>⟧.written self.now ≡ Some result.now }
    {
        self.bytes.as_slice()
    }
}

impl Sink for MemSink {
    ghost faults = { λ sink. sink.faults };

    ghost written = { λ sink. Some sink.bytes.items };

    fn put(&mut self, piece: &[u8]) -> Result<(), PutFault>
        requires { piece.now ≢ [] }
        ensures never_falls { ⟦<MemSink as Sink>⟧.faults self.old ≤ ⟦<MemSink as Sink>⟧.faults self.new }
        ensures whole { OnOk result (⟦<MemSink as Sink>⟧.written self.new ≡ appended (⟦<MemSink as Sink>⟧.written self.old) piece.now) }
        ensures ok_keeps_count { OnOk result (⟦<MemSink as Sink>⟧.faults self.new ≡ ⟦<MemSink as Sink>⟧.faults self.old) }
        ensures failed { OnErr result (Rose (⟦<MemSink as Sink>⟧.faults self.old) (⟦<MemSink as Sink>⟧.faults self.new)) }
        ensures prefix { OnErr result (AppendsPrefix (⟦<MemSink as Sink>⟧.written self.old) (⟦<MemSink as Sink>⟧.written self.new) piece.now) }

        // Beyond the trait's clauses: what the room and the trips do.
        ensures room_stays { self.new.room ≡ self.old.room }
        ensures trips_stay { self.new.trips ≡ self.old.trips }
        ensures counted { self.new.calls ≡ one_more self.old.calls }
        ensures succeeds { IsOk result ↔ Succeeds (trip_of self.old.trips self.old.calls) (length piece.now) (self.old.room - length self.old.bytes.items) }
        ensures kept { self.new.bytes.items ≡ self.old.bytes.items
            ++ take (kept_bytes (trip_of self.old.trips self.old.calls) (length piece.now) (self.old.room - length self.old.bytes.items)) piece.now }
    {
        let call = self.calls;
        self.calls = call.saturating_add(1);
        let free = self.room - self.bytes.len();
        let (kept, fails) = kept_of(self.trips.as_slice(), call, piece.len(), free);
        self.bytes.extend_from_slice(&piece[..kept]).unwrap();
        if fails {
            self.faults = self.faults.saturating_add(1);
            return Err(PutFault::Failed);
        }
        Ok(())
    }
}

/// How many of so many bytes a put keeps, and whether it fails.
fn kept_of(trips: &[Trip], call: u64, len: usize, free: usize) -> (usize, bool)
    ensures within { result.0 ≤ len }
    ensures fits { result.0 ≤ free }
    ensures whole { result.1 ≡ false → result.0 ≡ len }
    ensures kept { result.0 ≡ kept_bytes (trip_of trips.now call) len free }
    ensures succeeds { result.1 ≡ false ↔ Succeeds (trip_of trips.now call) len free }
{
    match find_trip(trips, call) {
        Some(trip) => (len.min(free).min(trip.keep as usize), true),
        None => (len.min(free), free < len),
    }
}

fn find_trip(trips: &[Trip], call: u64) -> Option<&Trip>
    ensures { option_copied result ≡ trip_of trips.now call }
{
    trips.iter().find(|trip| trip.call == call)
}
