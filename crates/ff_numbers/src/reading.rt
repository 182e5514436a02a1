// From the lines of a source to numbers.
ghost use Rattle.std.specs.Prelude.{◌≡◌, ◌+◌, ◌<◌, ◌≤◌, ◌∷◌, [], length, true, None, option_map};
ghost use Rattle.std.specs.Prelude.{IfOk, IfErr, OnOk};
ghost use Rattle.std.specs.Io.KnownBytes.{IsAtEnd};
ghost use Rattle.ff_rec.specs.Reading.{opening, after, given, last_given};
ghost use Rattle.ff_rec.specs.declared.fault.FeedFault.TheVariants.{Line as Passed};
ghost use Rattle.ff_numbers.specs.Data.{lone_number};
ghost use Rattle.ff_numbers.specs.Inputs.{Comes, IsRead, source_count};
ghost use Rattle.ff_numbers.specs.Reads.{Adds, IsDataFault, Reads, Stops};

use crate::{InputFault, MOST_NUMBERS};
use ff_dc::Numbers;
use ff_io::Source;
use ff_rec::{
    FeedFault, LONGEST_INPUT, LONGEST_LINE_ONE, LineFault, LineReader, NoMemory, Record,
    reading_is_cutting,
};
use std::alloc::Global;

/// How many bytes a call reads at once.
const PIECE: usize = 65_536;

/// The numbers of a source, which stand in its lines, one in each. The source is read to its end,
/// or to the first piece in which something is wrong: what is told is what stands first.
pub fn read_numbers<I: Source>(alloc: Global, source: &mut I) -> Result<Numbers, InputFault>
    ensures read { IfOk result (λ numbers. IsRead numbers
        (I.left source.old) (I.left source.new) (I.ended source.new)) }
    ensures fault { IfErr result (λ fault. Comes fault
        (I.left source.old) (I.left source.new) (I.ended source.new)) }
    ensures counts { I.faults source.new ≡ source_count (I.faults source.old) result }
{
    let (mut room, mut reader) = open_reading(alloc)?;
    let mut numbers = Numbers::new(alloc);
    reading_is_cutting();
    read_pieces(alloc, &mut room, &mut reader, &mut numbers, source)?;
    add_last(alloc, reader, &mut numbers)?;
    Ok(numbers)
}

// Reads to the end of the source, and adds the numbers of the lines that a newline ends.
fn read_pieces<I: Source>(
    alloc: Global,
    room: &mut [u8],
    reader: &mut LineReader,
    numbers: &mut Numbers,
    source: &mut I,
) -> Result<(), InputFault>
    requires room { 0 < length room.old }
    requires going { reader.old.fault ≡ None }
    requires few { length numbers.old ≤ MOST_NUMBERS }
    ensures ok { OnOk result (Reads reader.old numbers.old reader.new numbers.new
        (I.left source.old) (I.left source.new)) }
    ensures going { OnOk result (reader.new.fault ≡ None) }
    ensures is_end { OnOk result (I.ended source.new ≡ true) }
    ensures at_end { OnOk result (IsAtEnd (I.left source.new)) }
    ensures fault { IfErr result (λ fault. Stops fault reader.old numbers.old
        (I.left source.old) (I.left source.new) (I.ended source.new)) }
    ensures counts { I.faults source.new ≡ source_count (I.faults source.old) result }
{
    let mut records = Vec::new(alloc);
    'pieces: loop {
        let Ok(got) = source.read(room) else {
            return Err(InputFault::Read);
        };
        if got == 0 {
            return Ok(());
        }
        let limit = cut(&mut records, reader, &room[..got])?;
        add_all(&records, numbers)?;
        records.clear();
        if let Some(fault) = limit {
            return Err(InputFault::Line(fault));
        }
    }
}

// Room for what a call reads, and a reader that took nothing yet.
fn open_reading(alloc: Global) -> Result<(Vec<u8>, LineReader), NoMemory>
    ensures room { IfOk result (λ r. 0 < length r.0.items) }
    ensures reader { IfOk result (λ r. r.1 ≡ opening LONGEST_LINE_ONE LONGEST_INPUT) }
{
    let room = vec![in alloc; 0u8; PIECE]?;
    let reader = LineReader::new(alloc, LONGEST_LINE_ONE, LONGEST_INPUT)?;
    Ok((room, reader))
}

// Puts the records of the lines that some bytes end into a list that holds none. The answer is the
// limit that the bytes pass behind them, if they do.
fn cut(
    records: &mut Vec<Record>,
    reader: &mut LineReader,
    bytes: &[u8],
) -> Result<Option<LineFault>, NoMemory>
    requires empty { records.old.items ≡ [] }
    requires going { reader.old.fault ≡ None }
    ensures records { OnOk result (records.new.items ≡ given reader.old bytes.now) }
    ensures state { OnOk result (reader.new ≡ after reader.old bytes.now) }
    ensures refusal { IfOk result (λ fault. reader.new.fault ≡ option_map Passed fault) }
    ensures taken { IfOk result (λ fault. fault ≡ None
        → reader.new.taken ≡ reader.old.taken + length bytes.now) }
    ensures room { IfOk result (λ fault. fault ≡ None
        → reader.new.taken ≤ reader.old.input_limit) }
    ensures limit { reader.new.input_limit ≡ reader.old.input_limit }
{
    match reader.feed(bytes, records) {
        Ok(()) => Ok(None),
        Err(FeedFault::Line(fault)) => Ok(Some(fault)),
        Err(FeedFault::NoMemory) => Err(NoMemory),
    }
}

// Adds the number of a last line without a newline.
fn add_last(alloc: Global, reader: LineReader, numbers: &mut Numbers) -> Result<(), InputFault>
    requires going { reader.fault ≡ None }
    requires few { length numbers.old ≤ MOST_NUMBERS }
    ensures ok { OnOk result (Adds (last_given reader.line) numbers.old numbers.new) }
    ensures fault { IfErr result (IsDataFault (length numbers.old) (last_given reader.line)) }
{
    let mut records = Vec::new(alloc);
    reader.finish(&mut records)?;
    add_all(&records, numbers)
}

// Adds the numbers of these records.
fn add_all(records: &[Record], numbers: &mut Numbers) -> Result<(), InputFault>
    requires few { length numbers.old ≤ MOST_NUMBERS }
    ensures ok { OnOk result (Adds records.now numbers.old numbers.new) }
    ensures fault { IfErr result (IsDataFault (length numbers.old) records.now) }
{
    for line in records {
        add(line, numbers)?;
    }
    Ok(())
}

// Adds the number of the record of a line.
fn add(line: &Record, numbers: &mut Numbers) -> Result<(), InputFault>
    requires few { length numbers.old ≤ MOST_NUMBERS }
    ensures ok { OnOk result (Adds (line.now ∷ []) numbers.old numbers.new) }
    ensures fault { IfErr result (IsDataFault (length numbers.old) (line.now ∷ [])) }
{
    if numbers.len() == MOST_NUMBERS {
        return Err(InputFault::TooMany);
    }
    let Some(number) = lone_number(line) else {
        return Err(InputFault::NotNumber(numbers.len() as u64 + 1));
    };
    numbers.push(number)?;
    Ok(())
}

// The number of a record with one field that is one.
fn lone_number(line: &Record) -> Option<i64>
    ensures { result ≡ lone_number line.now }
{
    if line.len() != 1 {
        return None;
    }
    line.number(1)
}
