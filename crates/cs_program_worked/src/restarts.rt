// Runs over the journals and the outputs that earlier ones left.

use crate::objects::{Objects, objects_behind, sound_objects, told};
use crate::scripts::{CHANGE, ENDED, INSERT, ONE};
use cs_types::Memory;
use std::alloc::Global;
use std::test::Fail;

/// The objects behind a run of these words.
fn left_by(alloc: Global, words: &str) -> Result<Objects, Memory> {
    let mut all = sound_objects(alloc, INSERT, b"", b"")?;
    let _told = told(alloc, words, &mut all)?;
    Ok(all)
}

/// What a run of these words tells behind one of the words before.
fn told_behind(alloc: Global, before: &str, words: &str) -> Result<String, Memory> {
    let left = left_by(alloc, before)?;
    let mut all = objects_behind(alloc, INSERT, &left)?;
    told(alloc, words, &mut all)
}

#[test]
fn an_ended_run_ends_again(rt: HostRuntime) -> Result<(), Fail> {
    assert_eq!(rt; told_behind(rt.alloc(), ONE, ONE)?.as_str(), ENDED);
    Ok(())
}

/// Whether a run behind one of the same words leaves the bytes of both files.
fn leaves_both(alloc: Global, before: &str, words: &str) -> Result<bool, Memory> {
    let left = left_by(alloc, before)?;
    let mut all = objects_behind(alloc, INSERT, &left)?;
    let _told = told(alloc, words, &mut all)?;
    if all.journal.bytes() != left.journal.bytes() {
        return Ok(false);
    }
    Ok(all.output.bytes() == left.output.bytes())
}

#[test]
fn an_ended_run_stays(rt: HostRuntime) -> Result<(), Fail> {
    assert!(rt; leaves_both(rt.alloc(), ONE, ONE)?);
    Ok(())
}

const TO_TEN: &str = "replay a b c S 2024-05-01T00:00:01Z 2024-05-01T00:00:10Z";

const TO_FIVE: &str =
    "replay a b c S 2024-05-01T00:00:01Z 2024-05-01T00:00:10Z --moment 2024-05-01T00:00:05Z --turns 2";

const GONE_ON: &str =
    "0|0 Ended\n|183|{\"key\":{\"K\":\"1\"},\"kind\":\"INSERT\",\"new\":{\"A\":\"5\",\"B\":\"x\"},\"old\":{},\"stamp\":\"2024-05-01T00:00:01Z\",\"table\":\"T\",\"tx\":\"t1\"}\n{\"watermark\":\"2024-05-01T00:00:05Z\"}\n{\"watermark\":\"2024-05-01T00:00:10Z\"}\n|";

#[test]
fn a_paused_run_goes_on(rt: HostRuntime) -> Result<(), Fail> {
    assert_eq!(rt; told_behind(rt.alloc(), TO_FIVE, TO_TEN)?.as_str(), GONE_ON);
    Ok(())
}

const TO_TWO: &str = "replay a b c S 2024-05-01T00:00:01Z 2024-05-01T00:00:02Z";

const OTHER: &str =
    "52|52 OtherJournal S 2024-05-01T00:00:01Z 2024-05-01T00:00:01Z\n|154|{\"key\":{\"K\":\"1\"},\"kind\":\"INSERT\",\"new\":{\"A\":\"5\",\"B\":\"x\"},\"old\":{},\"stamp\":\"2024-05-01T00:00:01Z\",\"table\":\"T\",\"tx\":\"t1\"}\n{\"watermark\":\"2024-05-01T00:00:01Z\"}\n|";

#[test]
fn other_words_are_told_with_those_of_the_journal(rt: HostRuntime) -> Result<(), Fail> {
    assert_eq!(rt; told_behind(rt.alloc(), ONE, TO_TWO)?.as_str(), OTHER);
    Ok(())
}

#[test]
fn other_words_leave_both_files(rt: HostRuntime) -> Result<(), Fail> {
    assert!(rt; leaves_both(rt.alloc(), ONE, TO_TWO)?);
    Ok(())
}

/// An absent stream is looked for behind the journal.
#[test]
fn an_absent_stream_is_other_words(rt: HostRuntime) -> Result<(), Fail> {
    let absent = "replay a b c R 2024-05-01T00:00:01Z 2024-05-01T00:00:01Z";
    assert!(rt;
        told_behind(rt.alloc(), ONE, absent)?
            .as_str()
            .starts_with("52|52 OtherJournal S ")
    );
    Ok(())
}

/// What a run tells over the journal of another one, cut to so many bytes, and this output.
fn told_over_cut(alloc: Global, length: usize, output: &str) -> Result<String, Memory> {
    let left = left_by(alloc, ONE)?;
    let journal = left.journal.bytes();
    let length = length.min(journal.len());
    let mut all = sound_objects(alloc, INSERT, &journal[..length], output.as_bytes())?;
    told(alloc, ONE, &mut all)
}

#[test]
fn a_journal_that_is_cut_within_an_entry_is_bad(rt: HostRuntime) -> Result<(), Fail> {
    let told = told_over_cut(rt.alloc(), 40, CHANGE)?;
    assert!(rt; told.as_str().starts_with("53|53 BadJournal 28\n|40|{"));
    Ok(())
}

#[test]
fn a_torn_output_is_mended(rt: HostRuntime) -> Result<(), Fail> {
    let told = told_over_cut(rt.alloc(), 154, "{\"key\":{\"K\":\"1\"},\"ki")?;
    assert_eq!(rt; told.as_str(), ENDED);
    Ok(())
}

#[test]
fn a_foreign_output_beside_a_journal_is_made_anew(rt: HostRuntime) -> Result<(), Fail> {
    let told = told_over_cut(rt.alloc(), 154, "something else\n")?;
    assert_eq!(rt; told.as_str(), ENDED);
    Ok(())
}

#[test]
fn a_foreign_output_without_an_entry_stays(rt: HostRuntime) -> Result<(), Fail> {
    let told = told_over_cut(rt.alloc(), 0, "something else\n")?;
    assert_eq!(rt;
        told.as_str(),
        "55|55 OutputNotEmpty 15\n|1|something else\n|"
    );
    Ok(())
}
