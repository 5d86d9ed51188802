//! Laws of the values of indexes.
ghost use Rattle.std.specs.Prelude.{◌≡◌, ◌≤◌, ℕ, List, false, length, IsTrue, IsSomeAnd, Some};
ghost use Rattle.std.specs.Prelude.{codes};
ghost use Rattle.std.specs.List.{AllZip};
ghost use Rattle.elasticlunr_error.specs.Text.{Bytes};
ghost use Rattle.elasticlunr_trie.specs.Table.{Table};
ghost use Rattle.elasticlunr_store.specs.Contents.{Contents, store_value};
ghost use Rattle.elasticlunr_trie.specs.Tree.{IsTrieValue};
ghost use Rattle.elasticlunr_commands.specs.Fields.{all_differ};
ghost use Rattle.elasticlunr_commands.specs.History.{Commands, Agree};
ghost use Rattle.elasticlunr_commands.specs.Standing.{Plan};
ghost use Rattle.elasticlunr_print.specs.Printed.{IsIndexValue, IsPrintOf, IsTextOf, IsValue};
ghost use Rattle.elasticlunr_print.specs.Printed.{IsValueOf, IsValueOfNoOther, PrintAlike};
ghost use Rattle.elasticlunr_print.specs.Printed.{read_within, texts};
ghost use Rattle.elasticlunr_print.specs.Shape.{ArePartsOf, HasFields, HasLanguage, HasParts};
ghost use Rattle.elasticlunr_print.specs.Shape.{HasStore, HasTries};
ghost use Rattle.serde_json.specs.Data.{Data, array, string};
ghost use Rattle.serde_json.specs.Find.{get};
ghost use Rattle.serde_json.specs.Read.{read};
ghost use Rattle.serde_json.specs.Written.{has_float};

use elasticlunr_store::laws::one_contents_a_value;
use elasticlunr_trie::laws::{one_table_a_value, one_value_a_table};

/// The value of settings and commands is one.
pub fn settings_and_commands_have_one_value()
    ensures { (plan : Plan) (commands : Commands) (v : Data) (w : Data)
        → IsValue plan commands v → IsValue plan commands w → v ≡ w }
{
    one_value_a_table();
}

/// Commands that agree have equal values.
pub fn agreeing_commands_have_equal_values()
    ensures { (plan : Plan) (left : Commands) (right : Commands) (v : Data) (w : Data)
        → Agree left right → IsValue plan left v → IsValue plan right w → v ≡ w }
{
    settings_and_commands_have_one_value();
}

/// A value has no float, so that its text is that of the whole value.
pub fn values_have_no_float()
    ensures { (plan : Plan) (tables : List Table) (contents : Contents) (v : Data)
        → IsValueOf plan tables contents v → has_float v ≡ false }
{}

/// A value comes from one list of tables and one contents, and from plans that print alike.
pub fn values_tell_what_they_print()
    ensures { (plan : Plan) (tables : List Table) (contents : Contents) (v : Data)
        → IsIndexValue plan tables contents v → IsValueOfNoOther plan tables contents v }
{
    one_table_a_value();
    one_contents_a_value();
}

/// Plans that print alike have one value with the same tables and contents.
pub fn equal_parts_have_equal_values()
    ensures { (plan : Plan) (other : Plan) (tables : List Table) (contents : Contents) (v : Data)
        (w : Data)
        → PrintAlike plan other → IsValueOf plan tables contents v
        → IsValueOf other tables contents w → v ≡ w }
{
    one_value_a_table();
}

/// Where two indexes print one text, their tables and contents are equal, and their plans print
/// alike. The text may nest as deep as it likes.
pub fn equal_texts_have_equal_parts()
    ensures { (one_text : Data → List ℕ) (other_text : Data → List ℕ) (plan : Plan) (other : Plan)
        (tables : List Table) (others : List Table) (contents : Contents) (kept : Contents) (text : List ℕ)
        → IsTextOf one_text plan tables contents text → IsTextOf other_text other others kept text
        → PrintAlike plan other × (tables ≡ others) × (contents ≡ kept) }
{
    values_tell_what_they_print();
}

/// A value has its parts under their keys: the names of the fields, the store, the language's name,
/// and under each field's name the trie value of its table.
pub fn values_hold_their_parts()
    ensures fields { (plan : Plan) (tables : List Table) (contents : Contents) (v : Data)
        → IsValueOf plan tables contents v → get (codes "fields") v
        ≡ Some (array (texts plan.fields)) }
    ensures store { (plan : Plan) (tables : List Table) (contents : Contents) (v : Data)
        → IsValueOf plan tables contents v → get (codes "documentStore") v
        ≡ Some (store_value contents) }
    ensures language { (plan : Plan) (tables : List Table) (contents : Contents) (v : Data)
        → IsValueOf plan tables contents v → get (codes "lang") v ≡ Some (string plan.language) }
    ensures tries { (plan : Plan) (tables : List Table) (contents : Contents) (v : Data)
        → IsTrue (all_differ plan.fields) → length tables ≡ length plan.fields
        → IsValueOf plan tables contents v
        → IsSomeAnd (get (codes "index") v)
        (λ index. AllZip (λ name table. IsSomeAnd (get name index) (IsTrieValue table)) plan.fields
        tables) }
{}

/// A value has one list of fields, one table a field, one contents and one language at most.
pub fn a_value_has_its_parts_once()
    ensures fields { (v : Data) (names : List Bytes) (others : List Bytes)
        → HasFields v names → HasFields v others → names ≡ others }
    ensures tries { (v : Data) (names : List Bytes) (tables : List Table) (others : List Table)
        → HasTries v names tables → HasTries v names others → tables ≡ others }
    ensures store { (v : Data) (contents : Contents) (kept : Contents)
        → HasStore v contents → HasStore v kept → contents ≡ kept }
    ensures language { (v : Data) (name : Bytes) (other : Bytes)
        → HasLanguage v name → HasLanguage v other → name ≡ other }
{
    one_table_a_value();
    one_contents_a_value();
}

/// A reader that goes deeper reads the same in a text, so what readers read in it is one value.
pub fn readers_agree()
    ensures deeper { (text : List ℕ) (limit : ℕ) (more : ℕ) (v : Data)
        → limit ≤ more → read_within limit text ≡ Some v → read_within more text ≡ Some v }
    ensures one { (text : List ℕ) (limit : ℕ) (other : ℕ) (v : Data) (w : Data)
        → read_within limit text ≡ Some v → read_within other text ≡ Some w → v ≡ w }
{}

/// A printed text is read as a value with the parts that it was printed of, and with no others, by
/// a reader of any depth, too.
pub fn printed_texts_have_their_parts()
    ensures parts { (plan : Plan) (commands : Commands) (text : List ℕ)
        (print : IsPrintOf plan commands text)
        → HasParts print.value plan.fields print.tables print.contents }
    ensures language { (plan : Plan) (commands : Commands) (text : List ℕ)
        (print : IsPrintOf plan commands text)
        → HasLanguage print.value plan.language }
    ensures only { (plan : Plan) (commands : Commands) (text : List ℕ)
        (v : Data) (names : List Bytes) (tables : List Table) (contents : Contents)
        → IsPrintOf plan commands text → read text ≡ Some v → HasParts v names tables contents
        → ArePartsOf plan commands names tables contents }
    ensures only_within { (plan : Plan) (commands : Commands) (text : List ℕ) (limit : ℕ)
        (v : Data) (names : List Bytes) (tables : List Table) (contents : Contents)
        → IsPrintOf plan commands text → read_within limit text ≡ Some v
        → HasParts v names tables contents
        → ArePartsOf plan commands names tables contents }
{
    one_table_a_value();
    one_contents_a_value();
}
