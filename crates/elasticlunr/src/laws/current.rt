//! Laws of texts that the current documents decide.
ghost use Rattle.std.specs.Prelude.{List};
ghost use Rattle.elasticlunr_text.specs.Text.{Bytes};
ghost use Rattle.elasticlunr.specs.Calls.{Call};
ghost use Rattle.elasticlunr.specs.Current.{additions, HaveOwnReferences, HaveSameDocuments};
ghost use Rattle.elasticlunr.specs.Current.{LeaveOnlyCurrent, LeaveSameCurrent};
ghost use Rattle.elasticlunr.specs.Kept.{HaveEqualPrints};

use super::calls::a_kept_language_makes_one_document;
use elasticlunr_print::laws::values::agreeing_commands_have_equal_values;

/// An index that was compacted last, or that each of its documents was added to once, prints what
/// its current documents decide: neither the order of the calls nor what was there before matters.
pub fn current_documents_decide_the_text()
    ensures { (calls others : List Call) → LeaveOnlyCurrent calls → LeaveOnlyCurrent others
        → LeaveSameCurrent calls others → HaveEqualPrints calls others }
{
    a_kept_language_makes_one_document();
    agreeing_commands_have_equal_values();
}

/// Documents of different references may be added in any order.
pub fn documents_may_come_in_any_order()
    ensures { (documents others : List (Bytes × List Bytes))
        → HaveOwnReferences documents → HaveOwnReferences others
        → HaveSameDocuments documents others
        → HaveEqualPrints (additions documents) (additions others) }
{
    current_documents_decide_the_text();
}
