//! Writes a whole text to a sink.

ghost use Rattle.std.specs.Prelude.{◌≡◌, ◌<◌, ◌≤◌, ◌^◌, length, IsOk, IfOk, OnOk, OnErr};
ghost use Rattle.craig_io.specs.Faults.{Rose};
ghost use Rattle.craig_io.specs.Sink.{AppendsAll, AppendsPrefix, HasWritten};
ghost use Rattle.craig_io.specs.ToldBytes.{StaysTold};

use crate::failure::Failed;
use crate::sink::Sink;

/// Writes all the bytes, in as many writes as the sink needs. Empty bytes need none.
///
/// It stops at the first `Failed`: then a prefix of the bytes was taken, which may be none of them.
pub fn put_all<W: Sink>(sink: &mut W, bytes: &[u8]) -> Result<(), Failed>
    ensures written { OnOk result (AppendsAll bytes.now (W.contents sink.old) (W.contents sink.new)) }
    ensures begun { OnErr result (AppendsPrefix bytes.now (W.contents sink.old) (W.contents sink.new)) }
    ensures fault { OnErr result (Rose (W.faults sink.old) (W.faults sink.new)) }
    ensures quiet { OnOk result (W.faults sink.new ≡ W.faults sink.old) }
    ensures count { W.faults sink.old ≤ W.faults sink.new }
    ensures count_fits { W.faults sink.old < 2 ^ 64 → W.faults sink.new < 2 ^ 64 }
    ensures empty { length bytes.now ≡ 0 → IsOk result }
    ensures unused { length bytes.now ≡ 0 → sink.new ≡ sink.old }
{
    let mut rest = bytes;
    while !rest.is_empty() {
        rest = put_some(sink, rest)?;
    }
    Ok(())
}

/// Writes some of the bytes, from the first on, and gives those that are left to write. After `Failed` the
/// bytes held are as before.
fn put_some<'a, W: Sink>(sink: &mut W, bytes: &'a [u8]) -> Result<&'a [u8], Failed>
    requires { 0 < length bytes.now }
    ensures written { IfOk result (λ rest. HasWritten bytes.now rest.now (W.contents sink.old) (W.contents sink.new)) }
    ensures fewer { IfOk result (λ rest. length rest.now < length bytes.now) }
    ensures quiet { OnOk result (W.faults sink.new ≡ W.faults sink.old) }
    ensures kept { OnErr result (StaysTold (W.contents sink.old) (W.contents sink.new)) }
    ensures fault { OnErr result (Rose (W.faults sink.old) (W.faults sink.new)) }
    ensures count { W.faults sink.old ≤ W.faults sink.new }
    ensures count_fits { W.faults sink.new < 2 ^ 64 }
{
    let taken = sink.write(bytes)?;
    Ok(&bytes[taken..])
}
