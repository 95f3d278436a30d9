//! What the classes of the types hold at least. Each function is a law and does nothing.

ghost use Rattle.std.specs.Prelude.{◌≡◌, ℕ, ℤ, List, ◌∷◌, FitsSigned, Err, IfOk};
ghost use Rattle.std.specs.Int.{w64};
ghost use Rattle.std.specs.declared.ops.Range.{Range as Pages};
ghost use Rattle.biblatex_content.specs.Styled.{Member};
ghost use Rattle.biblatex_dates.specs.Shape.{shape_of, date_of};
ghost use Rattle.biblatex_dates.specs.declared.error.TypeErrorKind.{TypeErrorKind};
ghost use Rattle.biblatex_values.specs.EditorType.{known, known_names};
ghost use Rattle.biblatex_values.specs.Permissive.{Value, Text};
ghost use Rattle.biblatex_values.specs.declared.gender.Gender.{Gender as GenderValue};
ghost use Rattle.biblatex_field_types.specs.Classes.{Each, IsShort, AreShort, AreFilled, ArePlain};
ghost use Rattle.biblatex_lists.specs.Reading.{Named};

use crate::field_type::FieldType;
use crate::permissive::PermissiveType;
use biblatex_dates::Date;
use biblatex_lists::Person;
use biblatex_values::{EditorType, Gender};
use std::ops::Range;

/// Every integer from `i64::MIN` to `i64::MAX` is read back.
pub fn integers_are_read_back()
    ensures { (z : ℤ) → FitsSigned w64 z → ⟦<i64 as FieldType>⟧.InClass z }
{}

/// Every text is read back.
pub fn texts_are_read_back()
    ensures { (cs : List ℕ) → ⟦<String as FieldType>⟧.InClass cs }
{}

/// Every gender is read back.
pub fn genders_are_read_back()
    ensures { (g : GenderValue) → ⟦<Gender as FieldType>⟧.InClass g }
{}

/// Every editor type that has a name of its own is read back.
pub fn editor_types_are_read_back()
    ensures { Each (λ name. ⟦<EditorType as FieldType>⟧.InClass (known name)) known_names }
{}

/// Every range of pages up to 2147483647 is read back.
pub fn ranges_are_read_back()
    ensures { (r : Pages ℕ) → IsShort r → ⟦<Range<u32> as FieldType>⟧.InClass r }
{}

/// Every list of one range or more, of pages up to 2147483647, is read back.
pub fn lists_of_ranges_are_read_back()
    ensures { (r : Pages ℕ) (rs : List (Pages ℕ)) → AreShort (r ∷ rs)
        → ⟦<Vec<Range<u32>> as FieldType>⟧.InClass (r ∷ rs) }
{}

/// Every list of texts that are not empty is read back.
pub fn lists_of_texts_are_read_back()
    ensures { (ts : List (List ℕ)) → AreFilled ts → ⟦<Vec<String> as FieldType>⟧.InClass ts }
{}

/// Every list of people without prefix and suffix whose names and given names are capitalised words of ASCII letters is read
/// back.
#[tactic(auto, using(crate::proofs::ClassesHolding::people_hold))]
pub fn lists_of_people_are_read_back()
    ensures { (ns : List Named) → ArePlain ns → ⟦<Vec<Person> as FieldType>⟧.InClass ns }
{}

/// Every date that is read of a text is read back.
pub fn read_dates_are_read_back()
    ensures { (cs : List ℕ) → IfOk (date_of (shape_of cs)) ⟦<Date as FieldType>⟧.InClass }
{}

/// Every value that its type reads back is read back where it may be chunks.
pub fn typed_values_are_read_back<T: FieldType>()
    ensures { (v : T.View) → T.InClass v → ⟦<PermissiveType<T> as FieldType>⟧.InClass (Value v) }
{}

/// Chunks that are no value of the type are read back.
pub fn refused_chunks_are_read_back<T: FieldType>()
    ensures { (ms : List Member) (kind : TypeErrorKind) → T.reads ms ≡ Err kind
        → ⟦<PermissiveType<T> as FieldType>⟧.InClass (Text ms) }
{}
