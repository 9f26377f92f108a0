//! `run_lines`: reads a script line by line, and writes the answers.

ghost use Rattle.std.specs.Prelude.{◌≡◌, ◌⊎◌, IfErr, OnOk};
ghost use Rattle.nd_script.specs.Lines.Ends.{counted_on};
ghost use Rattle.nd_script.specs.Lines.Language.{RanToEndIn, StoppedAtIn};
ghost use Rattle.nd_script.specs.Lines.Run.{run_fault_of};

use crate::lines::answerer::Answerer;
use crate::lines::input::CountedRead;
use crate::lines::output::CountedWrite;
use crate::lines::run_fault::RunFault;
use crate::lines::script::Script;
use std::alloc::Global;

/// Runs a script by at most `turns` reads. Each line's answer is written before the next one is
/// carried out. At a fault the commands so far stand.
///
/// A script of the two lines `count`, over a notebook of no cells, writes `count 0` twice in the
/// plain language.
pub fn run_lines<R: CountedRead, W: CountedWrite, A: Answerer>(
    alloc: Global,
    reader: &mut R,
    writer: &mut W,
    answerer: &mut A,
    turns: u64,
) -> Result<(), RunFault>
    ensures to_end { OnOk result (RanToEndIn A.language (A.stage answerer.old)
        (R.remaining reader.old) (R.remaining reader.new)
        (A.state answerer.old) (W.contents writer.old)
        (W.contents writer.new) (A.state answerer.new)) }
    ensures stopped { IfErr result (λ f. StoppedAtIn A.language (A.stage answerer.old)
        (run_fault_of f) (R.remaining reader.old) (R.remaining reader.new)
        (A.state answerer.old) (W.contents writer.old)
        (W.contents writer.new) (A.state answerer.new)) }

    // A read fault comes only where a read failed or all reads were made, a write fault only where
    // a write failed.
    ensures read { IfErr result (λ f. f ≡ RunFault.ReadFault →
        (R.failures reader.new ≡ counted_on (R.failures reader.old) 1)
        ⊎ (R.reads reader.new ≡ counted_on (R.reads reader.old) turns)) }
    ensures written { IfErr result (λ f. f ≡ RunFault.WriteFault →
        W.failures writer.new ≡ counted_on (W.failures writer.old) 1) }
    ensures reader_kept { OnOk result (R.failures reader.new ≡ R.failures reader.old) }
    ensures writer_kept { OnOk result (W.failures writer.new ≡ W.failures writer.old) }
    ensures same_reference { A.reference answerer.new ≡ A.reference answerer.old }
    ensures same_meter { A.meter_reference answerer.new ≡ A.meter_reference answerer.old }
{
    let mut script = Script::new(alloc);
    let mut chunk = [0u8; 8192];
    for _turn in 0..turns {
        let Ok(n) = reader.read_counted(&mut chunk) else {
            return Err(RunFault::ReadFault);
        };
        if n == 0 {
            return script.finish(answerer, writer);
        }
        script.take_bytes(&chunk[..n], answerer, writer)?;
    }
    Err(RunFault::ReadFault)
}
