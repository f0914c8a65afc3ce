//! Writing of a line in three parts.
ghost use Rattle.std.specs.Prelude.{◌<◌, ◌++◌};
ghost use Rattle.swt_command.specs.Sinks.{Writes, held};

use values::sink::{Sink, SinkFault, write_all};

/// Writes three parts, one after the other.
///
/// # Errors
///
/// Returns `SinkFault` if a write fails. The sink then has received a prefix of the three parts.
pub fn write_parts<W: Sink>(
    sink: &mut W,
    first: &[u8],
    second: &[u8],
    third: &[u8],
) -> Result<(), SinkFault>
    requires { W.failures sink.old < u64.MAX }
    ensures { Writes result (held (W.taken sink.old) (W.failures sink.old)) ((first.now ++ second.now) ++ third.now)
        (held (W.taken sink.new) (W.failures sink.new)) }
{
    write_all(sink, first)?;
    write_all(sink, second)?;
    write_all(sink, third)
}
