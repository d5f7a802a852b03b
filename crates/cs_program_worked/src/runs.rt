use crate::objects::{Objects, sound_objects, source, told};
use crate::scripts::{CHANGE, ENDED, INSERT, ONE, TABLE};
use cs_device::MemSink;
use cs_types::{Items, Memory};
use std::alloc::Global;
use std::test::Fail;

const SILENT: &str =
    "43||154|{\"key\":{\"K\":\"1\"},\"kind\":\"INSERT\",\"new\":{\"A\":\"5\",\"B\":\"x\"},\"old\":{},\"stamp\":\"2024-05-01T00:00:01Z\",\"table\":\"T\",\"tx\":\"t1\"}\n{\"watermark\":\"2024-05-01T00:00:01Z\"}\n|";

const PAUSED_WORDS: &str =
    "replay a b c S 2024-05-01T00:00:01Z 2024-05-01T00:00:10Z --moment 2024-05-01T00:00:05Z --turns 2";

const PAUSED: &str =
    "10|10 Paused\n|150|{\"key\":{\"K\":\"1\"},\"kind\":\"INSERT\",\"new\":{\"A\":\"5\",\"B\":\"x\"},\"old\":{},\"stamp\":\"2024-05-01T00:00:01Z\",\"table\":\"T\",\"tx\":\"t1\"}\n{\"watermark\":\"2024-05-01T00:00:05Z\"}\n|";

const EMPTY: &str = "replay a b c S 2024-05-01T00:00:10Z 2024-05-01T00:00:20Z";

/// What a run over objects that do not fail and a journal without bytes tells.
fn plain(alloc: Global, words: &str, script: &str, output: &str) -> Result<String, Memory> {
    let mut all = sound_objects(alloc, script, b"", output.as_bytes())?;
    told(alloc, words, &mut all)
}

/// What a run tells beside a file of seven bytes that it has to leave alone.
fn beside(alloc: Global, words: &str, script: &str, output: &str) -> Result<String, Memory> {
    let mut all = sound_objects(alloc, script, b"journal", output.as_bytes())?;
    told(alloc, words, &mut all)
}

#[test]
fn one_insert_is_one_line_and_a_watermark(rt: HostRuntime) -> Result<(), Fail> {
    assert_eq!(rt; plain(rt.alloc(), ONE, INSERT, "")?.as_str(), ENDED);
    Ok(())
}

#[test]
fn an_empty_window_is_a_watermark(rt: HostRuntime) -> Result<(), Fail> {
    let told = plain(rt.alloc(), EMPTY, TABLE, "")?;
    assert_eq!(rt;
        told.as_str(),
        "0|0 Ended\n|83|{\"watermark\":\"2024-05-01T00:00:20Z\"}\n|"
    );
    Ok(())
}

#[test]
fn a_moment_before_the_end_pauses(rt: HostRuntime) -> Result<(), Fail> {
    assert_eq!(rt;
        plain(rt.alloc(), PAUSED_WORDS, INSERT, "")?.as_str(),
        PAUSED
    );
    Ok(())
}

#[test]
fn an_output_with_bytes_stays(rt: HostRuntime) -> Result<(), Fail> {
    let told = plain(rt.alloc(), ONE, INSERT, "x")?;
    assert_eq!(rt; told.as_str(), "55|55 OutputNotEmpty 1\n|1|x|");
    Ok(())
}

#[test]
fn a_bad_word_is_counted(rt: HostRuntime) -> Result<(), Fail> {
    let told = plain(rt.alloc(), "replay a b c S", INSERT, "")?;
    assert_eq!(rt; told.as_str(), "50|50 BadWords 5\n|0||");
    Ok(())
}

#[test]
fn a_bad_line_is_counted(rt: HostRuntime) -> Result<(), Fail> {
    let told = plain(rt.alloc(), ONE, "x\n", "")?;
    assert_eq!(rt; told.as_str(), "51|51 BadScript 1 NotJson\n|0||");
    Ok(())
}

fn over_a_failing_script(alloc: Global) -> Result<Objects, Memory> {
    let mut all = sound_objects(alloc, "", b"", b"")?;
    all.script = source(alloc, INSERT, &[1])?;
    Ok(all)
}

#[test]
fn a_script_that_fails_at_its_second_read(rt: HostRuntime) -> Result<(), Fail> {
    let mut all = over_a_failing_script(rt.alloc())?;
    let told = told(rt.alloc(), ONE, &mut all)?;
    assert_eq!(rt; told.as_str(), "42|42 SourceFault\n|0||");
    Ok(())
}

fn over_a_failing_console(alloc: Global) -> Result<Objects, Memory> {
    let mut all = sound_objects(alloc, INSERT, b"", b"")?;
    all.console = MemSink::new(alloc, 0, Items::new(alloc))?;
    Ok(all)
}

#[test]
fn a_console_that_fails(rt: HostRuntime) -> Result<(), Fail> {
    let mut all = over_a_failing_console(rt.alloc())?;
    let told = told(rt.alloc(), ONE, &mut all)?;
    assert_eq!(rt; told.as_str(), SILENT);
    Ok(())
}

const CHECK: &str = "check a c S 2024-05-01T00:00:01Z 2024-05-01T00:00:01Z";

/// The status and the console of a check of this output.
fn checked(alloc: Global, output: &str) -> Result<String, Memory> {
    beside(alloc, CHECK, INSERT, output)
}

#[test]
fn an_output_without_its_watermark_is_a_beginning(rt: HostRuntime) -> Result<(), Fail> {
    let told = checked(rt.alloc(), CHANGE)?;
    assert!(rt; told.as_str().starts_with("11|11 Verdict Prefix -\n|7|{"));
    Ok(())
}

#[test]
fn an_output_of_no_line_is_bad(rt: HostRuntime) -> Result<(), Fail> {
    let told = checked(rt.alloc(), "x\n")?;
    assert_eq!(rt; told.as_str(), "56|56 BadOutput 1\n|7|x\n|");
    Ok(())
}

#[test]
fn an_odd_number_of_commits_is_a_bad_word(rt: HostRuntime) -> Result<(), Fail> {
    let told = beside(rt.alloc(), "gen 11", "", "")?;
    assert_eq!(rt; told.as_str(), "50|50 BadWords 1\n|7||");
    Ok(())
}

const SUMMARY: &str =
    "0|gen 10 commits 10 changes 10 parts 9\norder 0 Complete\norder 1 Complete\norder 2 Complete\n0 Ended\n|7||";

#[test]
fn a_generated_script_is_replayed_and_audited(rt: HostRuntime) -> Result<(), Fail> {
    let told = beside(rt.alloc(), "gen 10", "", "")?;
    assert_eq!(rt; told.as_str(), SUMMARY);
    Ok(())
}

#[test]
fn an_absent_stream_is_refused(rt: HostRuntime) -> Result<(), Fail> {
    let words = "replay a b c R 2024-05-01T00:00:01Z 2024-05-01T00:00:01Z";
    let told = plain(rt.alloc(), words, INSERT, "")?;
    assert_eq!(rt; told.as_str(), "21|21 Refused UnknownFunction\n|29||");
    Ok(())
}
