// A sink in memory that takes so many bytes and then fails.
ghost use Rattle.std.specs.Prelude.{◌≡◌, ◌+◌, ◌-◌, ◌≤◌, ◌<◌, ◌^◌, ◌++◌, ◌↔◌, length, take, Some, vec_len, vec_capacity};
ghost use Rattle.io_edges.specs.Faults.{Rose, raised};
ghost use Rattle.io_edges.specs.Limit.{limit_from};
ghost use Rattle.io_edges.specs.Sink.{Adds};

use crate::{Put, Sink};
use jv_base::Mem;
use std::alloc::Global;

const ROOM: usize = 16_777_216;

/// Bytes in memory, up to a limit. A write needs no more memory.
#[derive(Drop)]
pub struct MemSink {
    bytes: Vec<u8>,
    limit: usize,
    faults: u64,
    ghost within: { vec_len bytes ≤ limit },
    ghost has_room: { limit ≤ vec_capacity bytes },
    ghost faults_fit: { faults < 2 ^ 64 },
}

// Adds a piece for which there is room.
fn add(bytes: &mut Vec<u8>, piece: &[u8])
    requires { vec_len bytes.old + length piece.now ≤ vec_capacity bytes.old }
    ensures items { bytes.new.items ≡ bytes.old.items ++ piece.now }
    ensures capacity { vec_capacity bytes.old ≤ vec_capacity bytes.new }
{
    let _ = bytes.extend_from_slice(piece);
}

fn limit_of(fail_after: Option<u64>) -> usize
    ensures limit { result ≡ limit_from fail_after }
    ensures no_more { result ≤ 16777216 }
{
    match fail_after {
        Some(limit) => limit.min(ROOM as u64) as usize,
        None => ROOM,
    }
}

impl MemSink {
    ghost use Rattle.std.specs.Prelude.{[], IfOk};
    ghost use Rattle.io_edges.specs.MemSink.{sink_bytes, sink_limit, sink_faults};

    /// Nothing yet. It fails after so many bytes, and after 16,777,216 in any case.
    pub fn new(alloc: Global, fail_after: Option<u64>) -> Mem<MemSink>
        ensures bytes { IfOk result (λ sink. sink_bytes sink ≡ []) }
        ensures limit { IfOk result (λ sink. sink_limit sink ≡ limit_from fail_after) }
        ensures faults { IfOk result (λ sink. sink_faults sink ≡ 0) }
    {
        Ok(MemSink {
            bytes: Vec::with_capacity(alloc, ROOM)?,
            limit: limit_of(fail_after),
            faults: 0,
        })
    }

    /// What was written so far.
    pub fn bytes(&self) -> &[u8]
        ensures { result.now ≡ sink_bytes self.now }
    {
        self.bytes.as_slice()
    }
}

impl Sink for MemSink {
    ghost use Rattle.io_edges.specs.MemSink.{sink_bytes, sink_limit, sink_faults};

    ghost written = { λ s. Some (sink_bytes s) };

    ghost count = { sink_faults };

    fn put(&mut self, bytes: &[u8]) -> Put
        ensures written { Adds (Some (sink_bytes self.old)) bytes.now result (Some (sink_bytes self.new)) }
        ensures later { sink_faults self.old ≤ sink_faults self.new }
        ensures failed { result ≡ Put.Failed → Rose (sink_faults self.old) (sink_faults self.new) }

        // Only a write that failed is counted.
        ensures counted { result ≡ Put.Failed → sink_faults self.new ≡ raised (sink_faults self.old) }
        ensures others { result ≡ Put.Done → sink_faults self.new ≡ sink_faults self.old }

        // It takes what fits, and is done where that is the whole piece.
        ensures done { (result ≡ Put.Done) ↔ (length (sink_bytes self.old) + length bytes.now ≤ sink_limit self.old) }
        ensures front { sink_bytes self.new
            ≡ sink_bytes self.old ++ take (sink_limit self.old - length (sink_bytes self.old)) bytes.now }
        ensures limit { sink_limit self.new ≡ sink_limit self.old }
    {
        let left = self.limit - self.bytes.len();
        if bytes.len() <= left {
            add(&mut self.bytes, bytes);
            return Put::Done;
        }
        add(&mut self.bytes, &bytes[..left]);
        self.faults = self.faults.saturating_add(1);
        Put::Failed
    }

    ghost count_fits = { λ s. s.faults_fit };
}
