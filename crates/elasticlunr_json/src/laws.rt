//! Laws of JSON texts: functions that do nothing, whose contracts are the laws.
ghost use Rattle.std.specs.Prelude.{◌≡◌, false};
ghost use Rattle.elasticlunr_json.specs.Texts.{HasIntegers, pretty_text};
ghost use Rattle.serde_json.specs.Data.{Data};
ghost use Rattle.serde_json.specs.Written.{compact_text, has_float};

/// Values that print one text are one, however deep they nest, where each number is an integer.
pub fn texts_tell_values()
    ensures compact { (v : Data) (w : Data)
        → HasIntegers v → HasIntegers w → compact_text v ≡ compact_text w → v ≡ w }
    ensures pretty { (v : Data) (w : Data)
        → HasIntegers v → HasIntegers w → pretty_text v ≡ pretty_text w → v ≡ w }
{}

/// A value whose numbers are integers has no float.
pub fn integers_are_no_floats()
    ensures { (v : Data) → HasIntegers v → has_float v ≡ false }
{}
