// The standard output of the system.
ghost use Rattle.std.specs.Prelude.{◌<◌, ◌^◌, ◌≡◌, None, OnOk};
ghost use Rattle.std.specs.Io.KnownBytes.{Appends};

use crate::{Put, Sink};
use std::io::{self, Write};

/// Standard output, of which no clause tells anything.
#[derive(Drop)]
pub struct OutSink<R> {
    rt: R,
    faults: u64,
    ghost faults_fit: { faults < 2 ^ 64 },
}

impl<R: Print> OutSink<R> {
    /// The standard output of this runtime.
    pub fn new(rt: R) -> OutSink<R>
        ensures { ⟦<OutSink<R> as Sink>⟧.count result ≡ 0 }
    {
        OutSink { rt, faults: 0 }
    }
}

// Writes a piece to its end. A write that takes nothing of what is left is a fault.
fn write_whole<W: Write>(out: &mut W, bytes: &[u8]) -> io::Result<()>
    ensures { OnOk result (Appends (W.contents out.old) (W.contents out.new) bytes.now) }
{
    let mut rest = bytes;
    while !rest.is_empty() {
        let taken = out.write(rest)?;
        if taken == 0 {
            return Err(io::ErrorKind::WriteZero.into());
        }
        rest = &rest[taken..];
    }
    Ok(())
}

fn write_out<W: Write>(out: &mut W, bytes: &[u8]) -> io::Result<()>
    ensures { OnOk result (Appends (W.contents out.old) (W.contents out.new) bytes.now) }
{
    write_whole(out, bytes)?;
    out.flush()
}

impl<R: Print> Sink for OutSink<R> {
    ghost written = { λ _. None };

    ghost count = { λ s. s.faults };

    fn put(&mut self, bytes: &[u8]) -> Put {
        match write_out(&mut io::writer(&self.rt), bytes) {
            Ok(()) => Put::Done,
            Err(_) => {
                self.faults = self.faults.saturating_add(1);
                Put::Failed
            }
        }
    }

    ghost count_fits = { λ s. s.faults_fit };
}
