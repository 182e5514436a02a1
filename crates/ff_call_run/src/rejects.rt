// The file for the rejected records.
ghost use Rattle.std.specs.Prelude.{◌≡◌, IfOk, IfErr, OnOk};
ghost use Rattle.ff_rec.specs.Lines.{text};
ghost use Rattle.ff_call.specs.Counts.{Files as of_files, count_by, raised};
ghost use Rattle.ff_call_run.specs.Finishing.{IsStoreFault};
ghost use Rattle.ff_call_run.specs.Running.{KeepsBut, Stored};

use ff_call::Fault;
use ff_io::{Files, StoreFault};
use ff_rec::{NoMemory, Records, print_record};
use ff_single::Report;
use ff_words::Text;
use std::alloc::Global;

/// Stores the rejected records, where a file is named for them, and answers how many there were.
pub fn store_rejects<F: Files>(
    alloc: Global,
    files: &mut F,
    rejects: Option<Text>,
    report: Report,
) -> Result<u64, Fault>
    ensures number { IfOk result (λ n. n ≡ report.rejected) }
    ensures stored { OnOk result
        (Stored rejects report.kept (F.told files.old) (F.told files.new)) }
    ensures fault { IfErr result (IsStoreFault rejects report.rejected) }
    ensures keeps { KeepsBut rejects (F.told files.old) (F.told files.new) }
    ensures counts { F.faults files.new ≡ count_by (raised of_files) (F.faults files.old) result }
{
    let Some(name) = rejects else {
        return Ok(report.rejected);
    };
    let text = text_of(alloc, report.kept)?;
    match files.store(name.as_str(), &text) {
        Ok(()) => Ok(report.rejected),
        Err(StoreFault::Failed) => Err(Fault::Rejects(name, report.rejected)),
        Err(StoreFault::NoMemory) => Err(Fault::NoMemory),
    }
}

// The text of these records.
fn text_of(alloc: Global, mut records: Records) -> Result<Vec<u8>, NoMemory>
    ensures { IfOk result (λ bytes. bytes.items ≡ text records) }
{
    let mut bytes = Vec::new(alloc);
    while let Some(r) = records.take_first() {
        print_record(&r, &mut bytes)?;
    }
    Ok(bytes)
}
