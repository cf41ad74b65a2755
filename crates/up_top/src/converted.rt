ghost use Rattle.std.specs.Prelude.{◌≡◌, ◌≤◌, OnOk, OnErr};
ghost use Rattle.up_store.specs.Outside.{Rose, written_with, GotPrefix};
ghost use Rattle.up_top.specs.Answers.{conversion_text};

use crate::answer::Conversion;
use crate::put::put_count;
use crate::verdict::{put_numbered, put_too_large, put_unspelled, put_verdict};
use up_store::{Sink, SinkFailed};

/// Puts what comes of a plan that a map converts.
pub(crate) fn put_conversion<K: Sink>(
    out: &mut K,
    conversion: &Conversion,
) -> Result<(), SinkFailed>
    ensures whole { OnOk result (K.written out.new ≡ written_with (conversion_text conversion.now) (K.written out.old)) }
    ensures prefix { OnErr result (GotPrefix (conversion_text conversion.now) (K.written out.old) (K.written out.new)) }
    ensures failed { OnErr result (Rose (K.faults out.old) (K.faults out.new)) }
    ensures counts { K.faults out.old ≤ K.faults out.new }
{
    match conversion {
        Conversion::BadLine(line) => put_numbered(out, b"map refused line ", *line, b"bad"),
        Conversion::SecondLine(line) => put_numbered(out, b"map refused line ", *line, b"double"),
        Conversion::Unspelled(place) => put_unspelled(out, *place),
        Conversion::Unfit(step) => put_count(out, b"plan unfit step ", *step),
        Conversion::Judged(verdict) => put_verdict(out, verdict),
        Conversion::TooLarge(step) => put_too_large(out, *step),
    }
}
