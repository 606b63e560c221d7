ghost use Rattle.std.specs.Prelude.{◌≡◌, ◌<◌, ◌≤◌, ℕ, true, length, take, OnOk, OnErr};
ghost use Rattle.beam_ports.specs.Counts.{rise};
ghost use Rattle.beam_ports.specs.Observed.{observed_sink};
ghost use Rattle.beam_ports.specs.Sinks.{then_taken};
ghost use Rattle.command_ends.specs.Retrying.{IsSinkGivenUp, IsSinkPatient, KeepsWriting, sink_in};
ghost use Rattle.command_ends.specs.Retrying.{RoseBy, RoseByFewer, TriesSink};
ghost use Rattle.command_ends.specs.Writing.{IsTextEnd};

use crate::retrying::RetryingSink;
use crate::status::Status;
use beam_ports::{Failed, Sink};

/// Writes the whole text: after a short write the rest, and after a failed one the same again, until
/// `attempts` writes have failed in this call. Takes no memory.
pub fn put<W: Sink>(sink: &mut W, text: &[u8], attempts: u32) -> Result<(), Failed>
    requires { 0 < attempts }
    ensures whole { OnOk result (W.taken sink.new ≡ then_taken (W.taken sink.old) text.now) }
    ensures part { OnErr result ((n : ℕ) × (n < length text.now)
        × (W.taken sink.new ≡ then_taken (W.taken sink.old) (take n text.now))) }
    ensures failed { OnErr result (attempts ≤ rise (W.faults sink.old) (W.faults sink.new)) }
    ensures counts { W.faults sink.old ≤ W.faults sink.new }
    ensures fewer { OnOk result (W.counts_exactly ≡ true
        → RoseByFewer (W.faults sink.old) (W.faults sink.new) attempts) }
    ensures exactly { OnErr result (W.counts_exactly ≡ true
        → RoseBy (W.faults sink.old) (W.faults sink.new) attempts) }
{
    put_all(&mut RetryingSink::new(sink, attempts), text)
}

// Writes the whole text, or a part of it until as many writes have failed as may.
fn put_all<W: Sink>(sink: &mut RetryingSink<'_, W>, text: &[u8]) -> Result<(), Failed>
    requires { IsSinkPatient sink.old }
    ensures whole { OnOk result (W.taken (sink_in sink.new)
        ≡ then_taken (W.taken (sink_in sink.old)) text.now) }
    ensures part { OnErr result ((n : ℕ) × (n < length text.now)
        × (W.taken (sink_in sink.new) ≡ then_taken (W.taken (sink_in sink.old)) (take n text.now))) }
    ensures few { OnOk result (IsSinkPatient sink.new) }
    ensures given_up { OnErr result (IsSinkGivenUp sink.new) }
    ensures tried { KeepsWriting W.Sink sink.old sink.new }
{
    let mut done = 0;
    while done < text.len() {
        match sink.write(text.split_at(done).1) {
            Ok(count) => done += count,
            Err(Failed) => return Err(Failed),
        }
    }
    Ok(())
}

/// Writes a whole text, with the status that this gives.
pub fn written<W: Sink>(out: &mut W, text: &[u8], attempts: u32) -> Status
    requires { 1 ≤ attempts }
    ensures ends { IsTextEnd (observed_sink W.faults W.taken out.old out.new) attempts text.now result }
    ensures tries { TriesSink W.Sink attempts out.old out.new result }
{
    match put(out, text, attempts) {
        Ok(()) => Status::Ok,
        Err(Failed) => Status::SinkFault,
    }
}
