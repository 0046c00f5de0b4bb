// Reading a whole DROM whose adapters are lent as records of two bytes each: number and kind.
ghost use Rattle.std.specs.Prelude.{◌≡◌};
ghost use Rattle.listed.specs.Pairs.{pairs_of};
ghost use Rattle.capi.specs.Calls.{read_answer, read_records, read_report};

use super::reading::drom_read;
use listed::Adapter;

// What `drom_read` answers and leaves for the adapters' bytes.
pub fn drom_read_listed(list: &[Adapter], drom: &[u8], records: &mut [u8], report: &mut [u8]) -> u8
    ensures answer { result ≡ read_answer (pairs_of list.now) drom.now records.old report.old }
    ensures records { records.new ≡ read_records (pairs_of list.now) drom.now records.old report.old }
    ensures report { report.new ≡ read_report (pairs_of list.now) drom.now records.old report.old }
{
    let pairs = listed::pairs_of(listed::kinds_of(list));
    drom_read(&pairs, drom, records, report)
}
