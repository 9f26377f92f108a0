//! `run`: runs a script over a notebook, from a reader to a writer.

ghost use Rattle.std.specs.Prelude.{◌≡◌, ◌^◌, ◌⊎◌, [], IfErr, OnOk};
ghost use Rattle.nd_model.specs.Book.Notebook.{book_of};
ghost use Rattle.nd_script.specs.Lines.Counts.{CountedStop, CountedToEnd};
ghost use Rattle.nd_script.specs.Lines.Ends.{counted_on};
ghost use Rattle.nd_model.specs.Book.ScriptRuns.{RanToEnd, StoppedAt};
ghost use Rattle.nd_script.specs.Lines.Run.{run_fault_of};
ghost use Rattle.nd_commands.specs.Run.{CountedFromNothing, CountedStopFromNothing, RanFromNothing, StoppedFromNothing, tally_of};

use crate::answerer::NotebookAnswerer;
use nd_notebook::{Meter, Notebook};
use nd_script::lines::{CountedRead, CountedWrite, RunFault, run_lines};
use std::alloc::Global;

// The most bytes of a cell's text.
const MOST_SOURCE: usize = 65_536;

// The most reads of a run.
const MOST_TURNS: u64 = 1 << 32;

/// Runs a script on a notebook. Each command's answer is written before the next one is carried
/// out, and the meter counts each run of a cell. At a fault the commands so far stand.
///
/// Want of memory stops a run only where a line is read, after whole answers. Where an answer itself
/// wants memory, as that to an edit may, it is `refused OutOfMemory`.
///
/// The script
///
/// ```text
/// insert 0
/// print(1)
/// .
/// show 0
/// ```
///
/// is answered by
///
/// ```text
/// ok
/// text 2
/// 1
/// ok
/// end
/// ```
pub fn run<R: CountedRead, W: CountedWrite>(
    alloc: Global,
    reader: &mut R,
    writer: &mut W,
    meter: &mut Meter,
    notebook: &mut Notebook,
) -> Result<(), RunFault>
    ensures to_end { OnOk result (RanToEnd (R.remaining reader.old) (R.remaining reader.new)
        (book_of notebook.old) (W.contents writer.old)
        (W.contents writer.new) (book_of notebook.new)) }
    ensures stopped { IfErr result (λ f. StoppedAt (run_fault_of f)
        (R.remaining reader.old) (R.remaining reader.new)
        (book_of notebook.old) (W.contents writer.old)
        (W.contents writer.new) (book_of notebook.new)) }

    // The meter after each command: an edit counts at most its stale cells, a refused edit and a
    // query none.
    ensures counted { OnOk result (CountedToEnd
        (R.remaining reader.old) (R.remaining reader.new)
        (tally_of notebook.old meter.old) (W.contents writer.old)
        (W.contents writer.new) (tally_of notebook.new meter.new)) }
    ensures counted_stop { IfErr result (λ f. CountedStop (run_fault_of f)
        (R.remaining reader.old) (R.remaining reader.new)
        (tally_of notebook.old meter.old) (W.contents writer.old)
        (W.contents writer.new) (tally_of notebook.new meter.new)) }

    // A read fault comes only where a read failed or 2^32 reads were made, a write fault only where
    // a write failed.
    ensures read { IfErr result (λ f. f ≡ RunFault.ReadFault →
        (R.failures reader.new ≡ counted_on (R.failures reader.old) 1)
        ⊎ (R.reads reader.new ≡ counted_on (R.reads reader.old) (2 ^ 32))) }
    ensures written { IfErr result (λ f. f ≡ RunFault.WriteFault →
        W.failures writer.new ≡ counted_on (W.failures writer.old) 1) }
    ensures reader_kept { OnOk result (R.failures reader.new ≡ R.failures reader.old) }
    ensures writer_kept { OnOk result (W.failures writer.new ≡ W.failures writer.old) }
{
    run_turns(alloc, reader, writer, meter, notebook, MOST_TURNS)
}

/// Runs a script as `run` does, on a notebook without cells, which is dropped at the end.
pub fn run_script<R: CountedRead, W: CountedWrite>(
    alloc: Global,
    reader: &mut R,
    writer: &mut W,
    meter: &mut Meter,
) -> Result<(), RunFault>
    ensures to_end { OnOk result (RanFromNothing (R.remaining reader.old) (R.remaining reader.new)
        (W.contents writer.old) (W.contents writer.new)) }
    ensures stopped { IfErr result (λ f. StoppedFromNothing (run_fault_of f)
        (R.remaining reader.old) (R.remaining reader.new)
        (W.contents writer.old) (W.contents writer.new)) }
    ensures counted { OnOk result (CountedFromNothing
        (R.remaining reader.old) (R.remaining reader.new)
        (W.contents writer.old) (W.contents writer.new) meter.old meter.new) }
    ensures counted_stop { IfErr result (λ f. CountedStopFromNothing (run_fault_of f)
        (R.remaining reader.old) (R.remaining reader.new)
        (W.contents writer.old) (W.contents writer.new) meter.old meter.new) }
    ensures read { IfErr result (λ f. f ≡ RunFault.ReadFault →
        (R.failures reader.new ≡ counted_on (R.failures reader.old) 1)
        ⊎ (R.reads reader.new ≡ counted_on (R.reads reader.old) (2 ^ 32))) }
    ensures written { IfErr result (λ f. f ≡ RunFault.WriteFault →
        W.failures writer.new ≡ counted_on (W.failures writer.old) 1) }
    ensures reader_kept { OnOk result (R.failures reader.new ≡ R.failures reader.old) }
    ensures writer_kept { OnOk result (W.failures writer.new ≡ W.failures writer.old) }
{
    let mut notebook = Notebook::new(alloc);
    let ended = run(alloc, reader, writer, meter, &mut notebook);
    drop(notebook);
    ended
}

/// Returns room for a source of any length that a cell may have. Without memory for it there is none
/// yet.
pub fn room_for_sources(alloc: Global) -> Vec<u8>
    ensures { result.items ≡ [] }
{
    Vec::with_capacity(alloc, MOST_SOURCE).unwrap_or(Vec::new(alloc))
}

/// Runs a script by at most `turns` reads.
pub fn run_turns<R: CountedRead, W: CountedWrite>(
    alloc: Global,
    reader: &mut R,
    writer: &mut W,
    meter: &mut Meter,
    notebook: &mut Notebook,
    turns: u64,
) -> Result<(), RunFault>
    ensures to_end { OnOk result (RanToEnd (R.remaining reader.old) (R.remaining reader.new)
        (book_of notebook.old) (W.contents writer.old)
        (W.contents writer.new) (book_of notebook.new)) }
    ensures stopped { IfErr result (λ f. StoppedAt (run_fault_of f)
        (R.remaining reader.old) (R.remaining reader.new)
        (book_of notebook.old) (W.contents writer.old)
        (W.contents writer.new) (book_of notebook.new)) }
    ensures counted { OnOk result (CountedToEnd
        (R.remaining reader.old) (R.remaining reader.new)
        (tally_of notebook.old meter.old) (W.contents writer.old)
        (W.contents writer.new) (tally_of notebook.new meter.new)) }
    ensures counted_stop { IfErr result (λ f. CountedStop (run_fault_of f)
        (R.remaining reader.old) (R.remaining reader.new)
        (tally_of notebook.old meter.old) (W.contents writer.old)
        (W.contents writer.new) (tally_of notebook.new meter.new)) }
    ensures read { IfErr result (λ f. f ≡ RunFault.ReadFault →
        (R.failures reader.new ≡ counted_on (R.failures reader.old) 1)
        ⊎ (R.reads reader.new ≡ counted_on (R.reads reader.old) turns)) }
    ensures written { IfErr result (λ f. f ≡ RunFault.WriteFault →
        W.failures writer.new ≡ counted_on (W.failures writer.old) 1) }
    ensures reader_kept { OnOk result (R.failures reader.new ≡ R.failures reader.old) }
    ensures writer_kept { OnOk result (W.failures writer.new ≡ W.failures writer.old) }
{
    let mut source = None;
    let mut room = room_for_sources(alloc);
    let mut ran = Vec::new(alloc);
    let mut answerer = NotebookAnswerer {
        alloc,
        meter,
        notebook,
        source: &mut source,
        room: &mut room,
        ran: &mut ran,
    };
    run_lines(alloc, reader, writer, &mut answerer, turns)
}
