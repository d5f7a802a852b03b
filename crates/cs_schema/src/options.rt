ghost use Rattle.std.specs.Prelude.{◌≡◌, ◌≤◌, ◌==◌, [], Some, None, MatchResult};
ghost use Rattle.std.specs.Cmp.Lexicographic.{pointwise};
ghost use Rattle.cs_schema.specs.Faults.{not_memory};
ghost use Rattle.cs_types.specs.Firsts.{first_of};
ghost use Rattle.cs_schema.specs.Options.{is_text, hours as hours_of, days as days_of, unit_of, retention_from, or_no_retention, capture_of_text, capture_setting, retention_setting, is_exclusion, setting_of, wrong_fault, option_fault, retention_if, retention_fault, built_if, built_fault, capture_after, capture_set, retention_after, retention_set};

use crate::SchemaFault;
use crate::lengths::is_digit;
use crate::names::text;
use crate::setting::Setting;
use cs_ddl::{OptionTree, OptionValue, Word};
use cs_types::{CaptureType, Items, Text, is_among};
use std::alloc::Global;

/// The most hours of a retention.
const MOST_HOURS: u64 = 168;

/// The most days of a retention.
const MOST_DAYS: u64 = 7;

/// The microseconds of an hour.
const HOUR: u64 = 3_600_000_000;

/// The microseconds of a day, which is how long changes are kept where no retention is set.
const DAY: u64 = 86_400_000_000;

fn is_word(word: &Word, text: &[u8]) -> bool
    ensures { result ≡ is_text word.now text.now }
{
    word.as_slice() == text
}

fn hours(count: u64) -> Option<u64>
    ensures { result ≡ hours_of count }
{
    if 24 <= count {
        if count <= MOST_HOURS {
            return Some(count * HOUR);
        }
    }
    None
}

fn days(count: u64) -> Option<u64>
    ensures { result ≡ days_of count }
{
    if 1 <= count {
        if count <= MOST_DAYS {
            return Some(count * DAY);
        }
    }
    None
}

fn with_unit(count: u64, letter: u8, behind: &[u8]) -> Option<u64>
    ensures { result ≡ unit_of count letter behind.now }
{
    match behind {
        [] => {
            if letter == b'h' {
                return hours(count);
            }
            if letter == b'd' {
                return days(count);
            }
            None
        }
        _ => None,
    }
}

/// The microseconds of `Nh` from 24 to 168 or `Nd` from 1 to 7.
fn retention(text: &[u8]) -> Option<u64>
    ensures { result ≡ retention_from 0 text.now }
{
    let mut rest = text;
    let mut count: u64 = 0;
    while let [first, behind @ ..] = rest {
        if !is_digit(*first) {
            return with_unit(count, *first, behind);
        }
        count = count * 10 + u64::from(*first - b'0');
        if MOST_HOURS < count {
            return None;
        }
        rest = behind;
    }
    None
}

fn retention_or_none(text: &[u8]) -> Setting
    ensures { result ≡ or_no_retention (retention_from 0 text.now) }
{
    match retention(text) {
        Some(us) => Setting::Retention(us),
        None => Setting::NoRetention,
    }
}

fn capture(text: &Word) -> Setting
    ensures { result ≡ capture_of_text text.now }
{
    if is_word(text, b"OLD_AND_NEW_VALUES") {
        return Setting::Capture(CaptureType::OldAndNewValues);
    }
    if is_word(text, b"NEW_VALUES") {
        return Setting::Capture(CaptureType::NewValues);
    }
    if is_word(text, b"NEW_ROW") {
        return Setting::Capture(CaptureType::NewRow);
    }
    if is_word(text, b"NEW_ROW_AND_OLD_VALUES") {
        return Setting::Capture(CaptureType::NewRowAndOldValues);
    }
    Setting::Wrong
}

fn capture_option(value: &OptionValue) -> Setting
    ensures { result ≡ capture_setting value.now }
{
    match value {
        OptionValue::Text(text) => capture(text),
        OptionValue::True => Setting::Wrong,
        OptionValue::False => Setting::Wrong,
        OptionValue::Null => Setting::Unset,
    }
}

fn retention_option(value: &OptionValue) -> Setting
    ensures { result ≡ retention_setting value.now }
{
    match value {
        OptionValue::Text(text) => retention_or_none(text.as_slice()),
        OptionValue::True => Setting::Wrong,
        OptionValue::False => Setting::Wrong,
        OptionValue::Null => Setting::Unset,
    }
}

fn excludes(name: &Word) -> bool
    ensures { result ≡ is_exclusion name.now }
{
    if is_word(name, b"exclude_insert") {
        return true;
    }
    if is_word(name, b"exclude_update") {
        return true;
    }
    if is_word(name, b"exclude_delete") {
        return true;
    }
    if is_word(name, b"exclude_ttl_deletes") {
        return true;
    }
    is_word(name, b"allow_txn_exclusion")
}

fn setting(option: &OptionTree) -> Setting
    ensures { result ≡ setting_of option.now }
{
    if is_word(&option.name, b"value_capture_type") {
        return capture_option(&option.value);
    }
    if is_word(&option.name, b"retention_period") {
        return retention_option(&option.value);
    }
    if excludes(&option.name) {
        return Setting::Exclusion;
    }
    Setting::Wrong
}

fn check_right(setting: Setting, name: Text) -> Result<Text, SchemaFault>
    ensures { MatchResult result (λ n. (wrong_fault setting name ≡ None) × (n ≡ name)) (λ e. wrong_fault setting name ≡ Some e) }
{
    match setting {
        Setting::Wrong => Err(SchemaFault::BadOption(name)),
        _ => Ok(name),
    }
}

/// Refuses the first option that is unknown, has a wrong value or stands twice.
pub(crate) fn check_options(alloc: Global, options: &[OptionTree]) -> Result<(), SchemaFault>
    ensures { MatchResult result (λ _. option_fault [] options.now ≡ None) (λ e. not_memory e → option_fault [] options.now ≡ Some e) }
{
    let mut seen = Items::new(alloc);
    for option in options {
        let name = text(alloc, &option.name)?;
        if is_among(&name, seen.as_slice()) {
            return Err(SchemaFault::BadOption(name));
        }
        let name = check_right(setting(option), name)?;
        seen.push(name)?;
    }
    Ok(())
}

fn check_retention(setting: Setting) -> Result<(), SchemaFault>
    ensures { MatchResult result (λ _. retention_if setting ≡ None) (λ e. not_memory e → retention_if setting ≡ Some e) }
{
    match setting {
        Setting::NoRetention => Err(SchemaFault::BadRetention),
        _ => Ok(()),
    }
}

/// Refuses a retention that is out of its range.
pub(crate) fn check_retentions(options: &[OptionTree]) -> Result<(), SchemaFault>
    ensures { MatchResult result (λ _. first_of retention_fault options.now ≡ None) (λ e. not_memory e → first_of retention_fault options.now ≡ Some e) }
{
    for option in options {
        check_retention(setting(option))?;
    }
    Ok(())
}

fn check_built(setting: Setting) -> Result<(), SchemaFault>
    ensures { MatchResult result (λ _. built_if setting ≡ None) (λ e. not_memory e → built_if setting ≡ Some e) }
{
    match setting {
        Setting::Exclusion => Err(SchemaFault::NotBuilt),
        _ => Ok(()),
    }
}

/// Refuses an option that is not built.
pub(crate) fn check_all_built(options: &[OptionTree]) -> Result<(), SchemaFault>
    ensures { MatchResult result (λ _. first_of built_fault options.now ≡ None) (λ e. not_memory e → first_of built_fault options.now ≡ Some e) }
{
    for option in options {
        check_built(setting(option))?;
    }
    Ok(())
}

fn capture_behind(before: CaptureType, setting: Setting) -> CaptureType
    ensures { result ≡ capture_after before setting }
{
    match setting {
        Setting::Capture(capture) => capture,
        _ => before,
    }
}

fn capture_by(before: CaptureType, options: &[OptionTree]) -> CaptureType
    ensures { result ≡ capture_set before options.now }
{
    let mut capture = before;
    for option in options {
        capture = capture_behind(capture, setting(option));
    }
    capture
}

/// The capture type that options set, or the default.
pub(crate) fn chosen_capture(options: &[OptionTree]) -> CaptureType
    ensures { result ≡ capture_set CaptureType.OldAndNewValues options.now }
{
    capture_by(CaptureType::OldAndNewValues, options)
}

fn retention_behind(before: u64, setting: Setting) -> u64
    ensures { result ≡ retention_after before setting }
{
    match setting {
        Setting::Retention(us) => us,
        _ => before,
    }
}

fn retention_by(before: u64, options: &[OptionTree]) -> u64
    ensures { result ≡ retention_set before options.now }
{
    let mut retention = before;
    for option in options {
        retention = retention_behind(retention, setting(option));
    }
    retention
}

/// The retention that options set, or the default, in microseconds.
pub(crate) fn chosen_retention(options: &[OptionTree]) -> u64
    ensures { result ≡ retention_set 86400000000 options.now }
{
    retention_by(DAY, options)
}
