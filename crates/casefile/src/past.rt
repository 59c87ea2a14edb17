// The table past the places of the case (document 02, change 5).
ghost use Rattle.std.specs.Prelude.{◌≡◌, true, is_ok};
ghost use Rattle.definitions.specs.CaseFiles.{zeroed_past};
ghost use Rattle.casefile.specs.Past.{FewPlaces, call_of};

use crate::head;
use definitions::CaseRead;

// Writes 0 past the places of a case that was taken; a refusal leaves the table.
pub(crate) fn zero_past(read: CaseRead, table: &mut [i64])
    requires { is_ok read.answer ≡ true → FewPlaces read.case }
    ensures { table.new ≡ (zeroed_past (call_of read table.old) read.answer).table }
{
    if read.answer.is_ok() {
        let case = read.case;
        tables::zero_from(table, head::places(case.n, case.d, case.m));
    }
}
