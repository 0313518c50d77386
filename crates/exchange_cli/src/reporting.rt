//! Says on the standard error how a run ended.

ghost use Rattle.std.specs.Prelude.{◌≡◌, ◌++◌, decimal, codes, OnOk, IsErr};
ghost use Rattle.shelf_core.specs.Faults.{HasCause};
ghost use Rattle.shelf_core.specs.Texts.{Appends};
ghost use Rattle.exchange_cli.specs.Run.{device, Says};
ghost use Rattle.exchange_cli.specs.Endings.{line, line_of};
ghost use Rattle.exchange_cli.specs.FaultTexts.{mapping_fault, table_fault};
ghost use Rattle.exchange_cli.specs.VerdictTexts.{trace_fault};

use crate::ending::Ending;
use crate::fault_texts::{mapping_code, table_code};
use crate::verdict_texts::trace_code;
use decl_text::MappingFault;
use failure_trace::TraceFault;
use itoa::Buffer;
use shelf_core::{Sink, SinkFailed};
use temporal_csv::TableFault;
use term_core::Text;

/// Writes the line of an ending that has one. A fault of the sink changes nothing else. It takes no memory.
pub fn report<E: Sink>(err: &mut E, ending: &Ending)
    ensures { Says (device (E.text err.old) (E.faults err.old))
        (device (E.text err.new) (E.faults err.new)) (line_of ending.now) }
{
    match ending {
        Ending::Done(_) => {}
        Ending::Words => say(err, b"refused: words", b""),
        Ending::Missing(name) => say(err, b"refused: missing ", name.as_bytes()),
        Ending::TooLong(name) => say(err, b"refused: too long ", name.as_bytes()),
        Ending::Mapping(fault) => say_mapping(err, *fault),
        Ending::Table(name, fault) => say_table(err, name, *fault),
        Ending::Trace(fault) => say_trace(err, *fault),
        Ending::Read(name) => say(err, b"fault: read ", name.as_bytes()),
        Ending::Write(name) => say(err, b"fault: write ", name.as_bytes()),
        Ending::Output => say(err, b"fault: output", b""),
        Ending::Memory => say(err, b"fault: memory", b""),
    }
}

// Writes a line of two parts, unless the sink fails.
fn say<E: Sink>(err: &mut E, kind: &[u8], about: &[u8])
    ensures { Says (device (E.text err.old) (E.faults err.old))
        (device (E.text err.new) (E.faults err.new)) (line (kind.now ++ about.now)) }
{
    if err.put(kind).is_ok() && err.put(about).is_ok() {
        let _ = err.put(b"\n");
    }
}

// Writes the line of a mapping's fault, unless the sink fails.
fn say_mapping<E: Sink>(err: &mut E, fault: MappingFault)
    ensures { Says (device (E.text err.old) (E.faults err.old))
        (device (E.text err.new) (E.faults err.new))
        (line (codes "refused: mapping " ++ mapping_fault fault)) }
{
    let code = mapping_code(fault.code);
    if err.put(b"refused: mapping ").is_ok()
        && put_fault(err, code, b" at byte ", fault.place).is_ok()
    {
        let _ = err.put(b"\n");
    }
}

// Writes the line of a table's fault, unless the sink fails.
fn say_table<E: Sink>(err: &mut E, name: &Text, fault: TableFault)
    ensures { Says (device (E.text err.old) (E.faults err.old))
        (device (E.text err.new) (E.faults err.new))
        (line (codes "refused: table " ++ name.now ++ codes " " ++ table_fault fault)) }
{
    let code = table_code(fault.code);
    if put_table(err, name).is_ok() && put_fault(err, code, b" at record ", fault.at).is_ok() {
        let _ = err.put(b"\n");
    }
}

// Writes the line of the fault of a trace's text, unless the sink fails.
fn say_trace<E: Sink>(err: &mut E, fault: TraceFault)
    ensures { Says (device (E.text err.old) (E.faults err.old))
        (device (E.text err.new) (E.faults err.new))
        (line (codes "refused: trace " ++ trace_fault fault)) }
{
    let code = trace_code(fault.code);
    if err.put(b"refused: trace ").is_ok()
        && put_fault(err, code, b" at line ", fault.line).is_ok()
    {
        let _ = err.put(b"\n");
    }
}

// Writes of which table the line is.
fn put_table<E: Sink>(err: &mut E, name: &Text) -> Result<(), SinkFailed>
    ensures text { OnOk result (Appends (E.text err.old) (E.text err.new)
        (codes "refused: table " ++ name.now ++ codes " ")) }
    ensures cause { HasCause (E.faults err.old) (E.faults err.new) (IsErr result) }
{
    err.put(b"refused: table ")?;
    err.put(name.as_bytes())?;
    err.put(b" ")
}

// Writes the number of a fault and its place.
fn put_fault<E: Sink>(err: &mut E, code: &[u8], at: &[u8], place: usize) -> Result<(), SinkFailed>
    ensures text { OnOk result (Appends (E.text err.old) (E.text err.new)
        (code.now ++ at.now ++ decimal place)) }
    ensures cause { HasCause (E.faults err.old) (E.faults err.new) (IsErr result) }
{
    let mut buffer = Buffer::new();
    err.put(code)?;
    err.put(at)?;
    err.put(buffer.format(place).as_bytes())
}
