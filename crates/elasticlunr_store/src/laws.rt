//! Laws of contents and of search options.
ghost use Rattle.std.specs.Prelude.{◌≡◌, Result, IfOk, IfErr};
ghost use Rattle.std.specs.Bool.{Decides};
ghost use Rattle.serde_json.specs.Data.{Data};
ghost use Rattle.elasticlunr_error.specs.declared.error.IndexError.{IndexError};
ghost use Rattle.elasticlunr_json.specs.Refused.{IsRefused, IsAnswer};
ghost use Rattle.elasticlunr_store.specs.Contents.{Contents, IsConsistent, IsStoreValue};
ghost use Rattle.elasticlunr_store.specs.Contents.{same_contents};
ghost use Rattle.elasticlunr_store.specs.Options.{Options, HasSmallBoosts, ReadsOptions};
ghost use Rattle.elasticlunr_store.specs.Options.{options_value, same_bool, same_options};
ghost use Rattle.elasticlunr_store.specs.Options.{same_field};
ghost use Rattle.elasticlunr_store.specs.declared.config.SearchBool.{SearchBool};
ghost use Rattle.elasticlunr_store.specs.declared.config.SearchOptionsField.{SearchOptionsField};

/// A value is the one of one store's contents at most.
pub fn one_contents_a_value()
    ensures { (c : Contents) (d : Contents) (v : Data) → IsStoreValue c v → IsStoreValue d v → c
        ≡ d }
{}

/// Contents have one value at most.
pub fn one_value_a_store()
    ensures { (c : Contents) (v : Data) (w : Data) → IsStoreValue c v → IsStoreValue c w → v ≡ w }
{}

/// An answer that keeps the contract of `DocumentStore::from_value` on the value of contents is
/// those contents, or out of memory.
pub fn store_values_are_read_back()
    ensures { (c : Contents) (v : Data) (answer : Result Contents IndexError)
        → IsConsistent c → IsStoreValue c v
        → IfOk answer (λ d. IsStoreValue d v)
        → IfErr answer (IsRefused ((d : Contents) → IsConsistent d → ¬ (IsStoreValue d v)))
        → IsAnswer c answer }
{}

/// Two stores are `==` exactly if their contents are equal.
pub fn equal_stores()
    ensures { (c : Contents) (d : Contents) → Decides (same_contents c d) (c ≡ d) }
{}

/// What is written for options gives these options when it is read.
pub fn written_options_are_read()
    ensures { (options : Options) → ReadsOptions (options_value options) options }
{}

/// A value gives one search's options at most.
pub fn one_options_a_value()
    ensures { (a : Options) (b : Options) (v : Data) → ReadsOptions v a → ReadsOptions v b → a
        ≡ b }
{}

/// An answer that keeps the contract of `SearchOptions::from_value` on what is written for options
/// is those options, or out of memory.
pub fn written_options_are_read_back()
    ensures { (options : Options) (answer : Result Options IndexError)
        → IfOk answer (ReadsOptions (options_value options))
        → IfErr answer (IsRefused ((other : Options)
        → ¬ (ReadsOptions (options_value options) other)))
        → IsAnswer options answer }
{}

/// The boosts of options have 8 bits.
pub fn boosts_are_small()
    ensures { (options : Options) → HasSmallBoosts options }
{}

/// Two ways to join tokens are `==` exactly if they are equal.
pub fn equal_bools()
    ensures { (a : SearchBool) (b : SearchBool) → Decides (same_bool a b) (a ≡ b) }
{}

/// Two search options are `==` exactly if their parts are equal.
pub fn equal_options()
    ensures { (a : Options) (b : Options) → Decides (same_options a b) (a ≡ b) }
{}

/// The options of two fields are `==` exactly if their parts are equal.
pub fn equal_fields()
    ensures { (a : SearchOptionsField) (b : SearchOptionsField)
        → Decides (same_field a b) (a ≡ b) }
{}
