ghost use Rattle.std.specs.Prelude.{◌≡◌, ◌↔◌, ◌≤◌, ◌/◌, ◌%◌, ℕ, ℤ, pos, All, FitsSigned, List, length, Ok, Some, true};
ghost use Rattle.std.specs.Fmt.{signed_decimal};
ghost use Rattle.std.specs.Int.{w64};
ghost use Rattle.base64.specs.Engines.{standard};
ghost use Rattle.base64.specs.GeneralPurpose.{encode_of, IsBytes};
ghost use Rattle.cs_types.specs.declared.change.RowName.{RowName};
ghost use Rattle.cs_types.specs.declared.column_type.ColumnType.{ColumnType};
ghost use Rattle.cs_types.specs.declared.value.Value.{Value};
ghost use Rattle.cs_types.specs.declared.value.Value.TheVariants.{Bytes};
ghost use Rattle.cs_types.specs.Database.{AreOfOneType};
ghost use Rattle.cs_types.specs.Civil.{SpellsDate};
ghost use Rattle.cs_types.specs.Dates.{date_reading};
ghost use Rattle.cs_types.specs.Integer.{SpellsInteger, integer_reading};
ghost use Rattle.cs_types.specs.Moment.{IsMoment, SpellsMoment, day_number, microsecond_of, moment_text};
ghost use Rattle.cs_types.specs.Numeric.{SpellsNumeric, numeric_reading};
ghost use Rattle.cs_types.specs.Row.{same_row};
ghost use Rattle.cs_types.specs.Stamp.{IsStamp, Spells as SpellsStamp, stamp_reading, stamp_text};
ghost use Rattle.cs_types.specs.Texts.{IsMarkOrDigit, HasNoEnd, HasNoQuote};
ghost use Rattle.cs_types.specs.Timestamps.{moment_reading};
ghost use Rattle.cs_types.specs.Value.{IsInRange, IsOfType, Spells, bytes_reading, value_data};

/// A law: the test of one row is equality.
pub fn same_row_is_equality()
    ensures { (a b : RowName) → (same_row a b ≡ true) ↔ (a ≡ b) }
{}

/// A law: the JSON that is written for a value is a spelling of it, in a column of its type.
pub fn written_values_read_back()
    ensures { (ty : ColumnType) (v : Value) → IsOfType ty v → IsInRange v → Spells ty (value_data v) v }
{}

/// A law: different values of one type have different JSON.
pub fn written_values_differ()
    ensures { (a b : Value) → AreOfOneType a b → IsInRange a → IsInRange b → value_data a ≡ value_data b → a ≡ b }
{}

/// A law: the text that is written for a stamp is one of its texts, and a text is of one stamp.
pub fn written_stamps_read_back()
    ensures written { (us : ℕ) → IsStamp us → SpellsStamp (stamp_text us) us }
    ensures one { (text : List ℕ) (us other : ℕ) → SpellsStamp text us → SpellsStamp text other → us ≡ other }
    ensures read { (us : ℕ) → IsStamp us → stamp_reading (stamp_text us) ≡ Some us }
{}

/// A law: a text is read as an INT64, a DATE or a TIMESTAMP exactly where it is one of that number,
/// day or moment, and as BYTES exactly where it is the one text of them in base64.
pub fn readings_are_spellings()
    ensures int64 { (text : List ℕ) (n : ℤ) → (integer_reading text ≡ Ok n) ↔ SpellsInteger text n }
    ensures date { (text : List ℕ) (day : ℤ) → (date_reading text ≡ Ok day) ↔ SpellsDate text day }
    ensures timestamp { (text : List ℕ) (us : ℤ) → (moment_reading text ≡ Ok us) ↔ SpellsMoment text us }
    ensures bytes { (text bytes : List ℕ) → IsBytes text → IsBytes bytes → (bytes_reading text ≡ Ok (Bytes bytes)) ↔ (text ≡ encode_of standard bytes) }
{}

/// A law: a text is read as a NUMERIC exactly where it has at most 64 bytes and is one of that
/// number.
pub fn numeric_readings_are_spellings()
    ensures { (text : List ℕ) (n : ℤ) → (numeric_reading text ≡ Ok n) ↔ ((length text ≤ 64) × SpellsNumeric text n) }
{}

/// A law: the text of a moment is digits and marks, without a quote and a line feed, and each
/// moment has a text of its own. A stamp is such a moment.
pub fn moment_texts_are_plain()
    ensures plain { (us : ℤ) → IsMoment us → All IsMarkOrDigit (moment_text us) }
    ensures no_quote { (us : ℤ) → IsMoment us → HasNoQuote (moment_text us) }
    ensures no_end { (us : ℤ) → IsMoment us → HasNoEnd (moment_text us) }
    ensures differ { (a b : ℤ) → IsMoment a → IsMoment b → moment_text a ≡ moment_text b → a ≡ b }
    ensures stamps { (us : ℕ) → IsStamp us → IsMoment (pos us) }
{}

/// A law: the day of a stamp, and its microseconds since midnight.
pub fn stamps_have_days()
    ensures day { (us : ℕ) → IsStamp us → day_number (pos us) ≡ pos (us / 86400000000) }
    ensures past { (us : ℕ) → IsStamp us → microsecond_of (pos us) ≡ us % 86400000000 }
{}

/// A law: a text of twenty bytes that is a stamp's is the one that is written for it, and the stamp
/// is a whole second; and each whole second's text has twenty bytes.
pub fn whole_seconds_have_twenty_bytes()
    ensures read { (text : List ℕ) (us : ℕ) → SpellsStamp text us → length text ≡ 20 → (text ≡ stamp_text us) × (us % 1000000 ≡ 0) }
    ensures written { (us : ℕ) → IsStamp us → us % 1000000 ≡ 0 → length (stamp_text us) ≡ 20 }
{}

/// A law: the text of an INT64 is digits and a minus.
pub fn integer_texts_are_plain()
    ensures { (n : ℤ) → FitsSigned w64 n → All IsMarkOrDigit (signed_decimal n) }
{}
