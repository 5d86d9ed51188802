//! Laws of documents that are added to an index.
ghost use Rattle.std.specs.Prelude.{◌≢◌, ◌∷◌, ◌++◌, [], List};
ghost use Rattle.elasticlunr.specs.Calls.{Call, adding, compacting};
ghost use Rattle.elasticlunr.specs.Current.{additions, HaveOwnReferences, LeaveSameCurrent};
ghost use Rattle.elasticlunr.specs.Kept.{HaveEqualPrints};
ghost use Rattle.elasticlunr.specs.Text.{Bytes};

use elasticlunr::laws::current::current_documents_decide_the_text;

/// Two documents of different references may be added in either order.
pub fn two_documents_may_come_in_either_order()
    ensures { (r s : Bytes) (values others : List Bytes) → r ≢ s
        → HaveEqualPrints (adding r values ∷ adding s others ∷ [])
        (adding s others ∷ adding r values ∷ []) }
{
    current_documents_decide_the_text();
}

/// An index that was compacted last prints what a new index of its current documents prints.
pub fn a_compacted_index_prints_as_a_new_one()
    ensures { (calls : List Call) (documents : List (Bytes × List Bytes))
        → HaveOwnReferences documents
        → LeaveSameCurrent (calls ++ compacting ∷ []) (additions documents)
        → HaveEqualPrints (calls ++ compacting ∷ []) (additions documents) }
{
    current_documents_decide_the_text();
}
