//! Laws of removals and compactions: they leave what a new index with the current documents has.
ghost use Rattle.std.specs.Prelude.{◌≡◌, ◌↔◌, ℕ, List, None, Some, slice_get};
ghost use Rattle.elasticlunr_error.specs.Text.{Text, Bytes};
ghost use Rattle.elasticlunr_trie.specs.Table.{Table, posting};
ghost use Rattle.elasticlunr_store.specs.Contents.{Contents};
ghost use Rattle.elasticlunr_commands.specs.History.{Commands, ◌▸◌, remove, now, EndsCompacted};
ghost use Rattle.elasticlunr_commands.specs.History.{IsFresh};
ghost use Rattle.elasticlunr_commands.specs.Standing.{Plan, Holds};
ghost use Rattle.elasticlunr_print.specs.Printed.{IsValue};
ghost use Rattle.serde_json.specs.Data.{Data};

/// Each list of commands leaves current documents that a new index can be given, each once.
pub fn each_index_can_be_rebuilt()
    ensures { (commands : Commands) → (fresh : Commands) × IsFresh commands fresh }
{}

/// The contents of the store, and all postings, are those of a new index with the current
/// documents.
pub fn removed_documents_leave_no_posting()
    ensures contents { (plan : Plan) (commands fresh : Commands) (tables others : List Table)
        (contents kept : Contents)
        → IsFresh commands fresh → Holds plan commands tables contents
        → Holds plan fresh others kept
        → contents ≡ kept }
    ensures postings { (plan : Plan) (commands fresh : Commands) (tables others : List Table)
        (contents kept : Contents)
        → IsFresh commands fresh → Holds plan commands tables contents
        → Holds plan fresh others kept
        → (i : ℕ) (table other : Table) → slice_get tables i ≡ Some table → slice_get others i
        ≡ Some other
        → (token : Text) (r : Bytes) → posting table token r ≡ posting other token r }
{}

/// After a compaction the whole is that of a new index with the current documents.
pub fn compacted_indexes_are_as_new()
    ensures held { (plan : Plan) (commands : Commands) (fresh : Commands) (tables : List Table)
        (contents : Contents)
        → EndsCompacted commands → IsFresh commands fresh
        → Holds plan commands tables contents ↔ Holds plan fresh tables contents }
    ensures value { (plan : Plan) (commands : Commands) (fresh : Commands) (value : Data)
        → EndsCompacted commands → IsFresh commands fresh
        → IsValue plan commands value ↔ IsValue plan fresh value }
{}

/// Removing a reference without a current document changes nothing.
pub fn removing_the_absent_changes_nothing()
    ensures { (plan : Plan) (commands : Commands) (r : Bytes) (tables : List Table)
        (contents : Contents)
        → now commands r ≡ None
        → Holds plan commands tables contents ↔ Holds plan (commands ▸ remove r) tables contents }
{}
