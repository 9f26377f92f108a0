//! `run_desk`: runs a script with words for front ends, from a reader to a writer.

ghost use Rattle.std.specs.Prelude.{◌≡◌, ℕ, ◌^◌, ◌⊎◌, [], IfErr, List, OnOk};
ghost use Rattle.nd_model.specs.Book.Script.{Between};
ghost use Rattle.nd_script.specs.Lines.Ends.{counted_on};
ghost use Rattle.nd_script.specs.Lines.Language.{RanToEndIn, StoppedAtIn};
ghost use Rattle.nd_script.specs.Lines.Run.{run_fault_of};
ghost use Rattle.nd_commands.specs.Noted.{noted_of};
ghost use Rattle.nd_desk.specs.Answers.{desk};
ghost use Rattle.nd_desk.specs.Words.{Plainly};

use crate::answerer::DeskAnswerer;
use nd_commands::{CountedRead, CountedWrite, RunFault, room_for_sources};
use nd_notebook::{Meter, Notebook};
use nd_script::lines::run_lines;

// The most reads of a run.
const MOST_TURNS: u64 = 1 << 32;

/// Runs a script with words for front ends on a notebook. Each command's answer is written before the
/// next one is carried out, and the meter counts each run of a cell. At a fault the commands so far
/// stand.
pub fn run_desk<R: CountedRead, W: CountedWrite>(
    rt: &HostRuntime,
    reader: &mut R,
    writer: &mut W,
    meter: &mut Meter,
    notebook: &mut Notebook,
) -> Result<(), RunFault>
    ensures to_end { OnOk result ((ran : List ℕ) × RanToEndIn desk (Plainly Between)
        (R.remaining reader.old) (R.remaining reader.new)
        (noted_of notebook.old meter.old []) (W.contents writer.old)
        (W.contents writer.new) (noted_of notebook.new meter.new ran)) }
    ensures stopped { IfErr result (λ f. (ran : List ℕ) × StoppedAtIn desk (Plainly Between)
        (run_fault_of f) (R.remaining reader.old) (R.remaining reader.new)
        (noted_of notebook.old meter.old []) (W.contents writer.old)
        (W.contents writer.new) (noted_of notebook.new meter.new ran)) }
    ensures read { IfErr result (λ f. f ≡ RunFault.ReadFault →
        (R.failures reader.new ≡ counted_on (R.failures reader.old) 1)
        ⊎ (R.reads reader.new ≡ counted_on (R.reads reader.old) (2 ^ 32))) }
    ensures written { IfErr result (λ f. f ≡ RunFault.WriteFault →
        W.failures writer.new ≡ counted_on (W.failures writer.old) 1) }
    ensures reader_kept { OnOk result (R.failures reader.new ≡ R.failures reader.old) }
    ensures writer_kept { OnOk result (W.failures writer.new ≡ W.failures writer.old) }
{
    let mut source = None;
    let mut room = room_for_sources(rt.alloc());
    let mut ran = Vec::new(rt.alloc());
    let mut answerer = DeskAnswerer {
        rt,
        meter,
        notebook,
        source: &mut source,
        room: &mut room,
        ran: &mut ran,
    };
    run_lines(rt.alloc(), reader, writer, &mut answerer, MOST_TURNS)
}
