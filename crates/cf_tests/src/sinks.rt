// Sinks in memory and of the system, and an output that takes one byte a call.
use io_edges::{MemSink, OutSink, Put, Sink};
use std::cell::Cell;
use std::fmt::Display;
use std::io;

#[test]
fn a_sink_in_memory_takes_ten_bytes(rt: HostRuntime) {
    let mut sink = MemSink::new(rt.alloc(), Some(10)).expect(&rt, "memory");
    let pieces = [
        ("hello ", Put::Done, "hello "),
        ("", Put::Done, "hello "),
        ("worlds", Put::Failed, "hello worl"),
        ("", Put::Done, "hello worl"),
        ("x", Put::Failed, "hello worl"),
    ];
    for (piece, put, bytes) in pieces {
        assert!(rt; sink.put(piece.as_bytes()) == put);
        assert!(rt; sink.bytes() == bytes.as_bytes());
    }
}

#[test]
fn a_sink_in_memory_has_room_for_16777216_bytes(rt: HostRuntime) {
    let mut sink = MemSink::new(rt.alloc(), None).expect(&rt, "memory");
    assert!(rt; sink.put(b"a line\n") == Put::Done);
    let long = vec![in rt.alloc(); 7u8; 16_777_210].expect(&rt, "memory");
    assert!(rt; sink.put(long.as_slice()) == Put::Failed);
    assert!(rt; sink.bytes().len() == 16_777_216);
}

#[test]
fn the_sink_of_the_system_writes(rt: HostRuntime) {
    let mut sink = OutSink::new(&rt);
    assert!(rt; sink.put(b"written to standard output\n") == Put::Done);
}

/// An output that takes one byte a call, while that is the next of a text; and none behind it, or a fault where it is
/// closed.
#[derive(Drop)]
struct ByteByByte {
    text: &'static [u8],
    taken: Cell<usize>,
    closed: bool,
}

impl ByteByByte {
    fn new(text: &'static [u8], closed: bool) -> ByteByByte {
        ByteByByte {
            text,
            taken: Cell::new(0),
            closed,
        }
    }
}

impl Print for ByteByByte {
    fn print<D: Display + Drop>(&self, _: D) -> io::Result<()> {
        Err(io::ErrorKind::Unsupported.into())
    }

    fn println<D: Display + Drop>(&self, _: D) -> io::Result<()> {
        Err(io::ErrorKind::Unsupported.into())
    }

    fn write_all(&self, _: &[u8]) -> io::Result<()> {
        Err(io::ErrorKind::Unsupported.into())
    }

    fn write_some(&self, bytes: &[u8]) -> io::Result<usize> {
        let taken = self.taken.get();
        if bytes.is_empty() || bytes.first() != self.text.get(taken) {
            return if self.closed {
                Err(io::ErrorKind::BrokenPipe.into())
            } else {
                Ok(0)
            };
        }
        self.taken.set(taken.saturating_add(1));
        Ok(1)
    }
}

#[test]
fn an_output_that_takes_one_byte_a_call_gets_all(rt: HostRuntime) {
    let output = ByteByByte::new(b"one text", true);
    let mut sink = OutSink::new(&output);
    assert!(rt; sink.put(b"one ") == Put::Done);
    assert!(rt; sink.put(b"text") == Put::Done);
    assert!(rt; output.taken.get() == 8);
}

#[test]
fn an_output_that_stops_in_a_piece_is_a_fault(rt: HostRuntime) {
    for closed in [false, true] {
        let output = ByteByByte::new(b"one te", closed);
        let mut sink = OutSink::new(&output);
        assert!(rt; sink.put(b"one text") == Put::Failed);
        assert!(rt; output.taken.get() == 6);
    }
}
