ghost use Rattle.std.specs.Prelude.{◌≡◌, ◌||◌, false, Some, IfOk, option_map};
ghost use Rattle.serde_json.specs.Read.{read};
ghost use Rattle.cs_tree.specs.View.{view};
ghost use Rattle.cs_txn.specs.History.{last_stamp};
ghost use Rattle.cs_script.specs.Readings.{Gives};
ghost use Rattle.cs_script.specs.Members.{no_others};
ghost use Rattle.cs_script.specs.Line.{word_of, line_members, is_back, is_among_commits, at_text, moment_reading, action_reading, built, object_reading, object_of, tree_of};
ghost use Rattle.cs_script.specs.Takes.{IsMomentOf};

use crate::action::{Action, Word};
use crate::combine::both;
use crate::commit::commit_of;
use crate::members::{bad, has, no_others, required_text, text_of};
use crate::reshape::reshape_of;
use crate::{LineCause, ServerState};
use cs_tree::{Tree, TreeFault};
use cs_types::{Json, Memory, Stamp, StampFault, Text};
use json::Scratch;
use std::alloc::Global;

/// Which of the three stands; the first of several, and of none.
#[tactic(auto, unfolding(crate::specs::Line::word_of))]
fn word_of(tree: &Tree<'_>) -> Word
    ensures { result ≡ word_of (view tree.now) }
{
    if has(tree, "ddl") {
        return Word::Ddl;
    }
    if has(tree, "commit") {
        return Word::Commit;
    }
    if has(tree, "reshape") {
        return Word::Reshape;
    }
    Word::Ddl
}

/// That a line has no members but `at` and that of its kind.
fn no_other_members(alloc: Global, word: Word, tree: &Tree<'_>) -> Result<(), LineCause>
    ensures { Gives result (no_others (line_members word) (view tree.now)) }
{
    match word {
        Word::Ddl => no_others(alloc, tree, &["at", "ddl"]),
        Word::Commit => no_others(alloc, tree, &["at", "commit"]),
        Word::Reshape => no_others(alloc, tree, &["at", "reshape"]),
    }
}

/// That neither `system` nor `excluded` stands in a commit.
fn built(tree: &Tree<'_>) -> Result<(), LineCause>
    ensures { Gives result (built (view tree.now)) }
{
    let Some(commit) = tree.get("commit") else {
        return Ok(());
    };
    if has(commit, "system") {
        return Err(LineCause::NotBuilt);
    }
    if has(commit, "excluded") {
        return Err(LineCause::NotBuilt);
    }
    Ok(())
}

/// What the text of `at` is read as; where there is none, anything.
pub(crate) fn told_of(tree: &Tree<'_>) -> Result<Stamp, StampFault>
    ensures { IsMomentOf (at_text (view tree.now)) result }
{
    let Some(member) = tree.get("at") else {
        return Err(StampFault::Range);
    };
    match member.as_str() {
        Some(text) => Stamp::read(text.as_bytes()),
        None => Err(StampFault::Range),
    }
}

/// Whether a line of this kind and moment may not follow.
fn is_late(state: &ServerState, word: Word, at: Stamp) -> bool
    ensures { result ≡ (is_back state.now.last at || is_among_commits word state.now.modifications at) }
{
    if let Some(last) = state.last() {
        if at < last {
            return true;
        }
    }
    match word {
        Word::Commit => false,
        _ => at.us() <= last_commit(state),
    }
}

/// The moment of the last commit, in microseconds; 0 before the first.
fn last_commit(state: &ServerState) -> u64
    ensures { result ≡ last_stamp state.now.modifications }
{
    match state.history().modifications() {
        [.., last] => last.stamp.us(),
        [] => 0,
    }
}

/// The moment of a line of a kind, of whose text this was read.
fn moment_of(
    alloc: Global,
    state: &ServerState,
    word: Word,
    told: Result<Stamp, StampFault>,
    tree: &Tree<'_>,
) -> Result<Stamp, LineCause>
    ensures reading { Gives result (moment_reading state.now word told (at_text (view tree.now))) }
    ensures order { IfOk result (λ at. is_back state.now.last at ≡ false) }
{
    text_of(alloc, tree, "at")?;
    match told {
        Ok(at) => if is_late(state, word, at) {
            Err(LineCause::Order)
        } else {
            Ok(at)
        },
        Err(fault) => Err(LineCause::Stamp(fault)),
    }
}

/// The tag of the last commit; none before the first.
fn last_tag(state: &ServerState) -> Option<&Text> {
    match state.history().modifications() {
        [.., last] => Some(&last.tag),
        [] => None,
    }
}

/// What a line of a kind says beside its moment.
fn action_of(
    alloc: Global,
    state: &ServerState,
    word: Word,
    tree: &Tree<'_>,
) -> Result<Action, LineCause>
    ensures { Gives result (action_reading state.now word (view tree.now)) }
{
    match word {
        Word::Ddl => Ok(Action::Ddl(required_text(alloc, tree, "ddl")?)),
        Word::Commit => match tree.get("commit") {
            Some(commit) => Ok(Action::Commit(commit_of(
                alloc,
                state.catalog().tables(),
                last_tag(state),
                commit,
            )?)),
            None => Err(bad(alloc, "commit")),
        },
        Word::Reshape => match tree.get("reshape") {
            Some(reshape) => Ok(Action::Reshape(reshape_of(alloc, state.catalog(), reshape)?)),
            None => Err(bad(alloc, "reshape")),
        },
    }
}

/// The moment of an object and what is done then; of its `at` this was read.
#[tactic(auto, unfolding(crate::specs::Line::object_reading))]
pub(crate) fn object_of(
    alloc: Global,
    state: &ServerState,
    told: Result<Stamp, StampFault>,
    tree: &Tree<'_>,
) -> Result<(Stamp, Action), LineCause>
    ensures reading { Gives result (object_reading state.now told (view tree.now)) }
    ensures order { IfOk result (λ p. is_back state.now.last p.0 ≡ false) }
{
    let word = word_of(tree);
    let built = built(tree);
    let at = moment_of(alloc, state, word, told, tree);
    let action = action_of(alloc, state, word, tree);
    let others = no_other_members(alloc, word, tree);
    let ((), (at, (action, ()))) = both(built, both(at, both(action, others)))?;
    Ok((at, action))
}

/// The object that a line is; None where it is none.
#[tactic(auto, using(crate::proofs::Trees::no_text, crate::proofs::Trees::of_text))]
pub(crate) fn tree_of<'a>(
    alloc: Global,
    line: &'a [u8],
    scratch: &'a mut Scratch,
) -> Result<Option<Tree<'a>>, Memory>
    ensures { IfOk result (λ o. option_map view o ≡ tree_of line.now) }
{
    let Ok(text) = str::from_utf8(line) else {
        return Ok(None);
    };
    text_tree(alloc, text, scratch)
}

fn text_tree<'a>(
    alloc: Global,
    text: &'a str,
    scratch: &'a mut Scratch,
) -> Result<Option<Tree<'a>>, Memory>
    ensures { IfOk result (λ o. option_map view o ≡ object_of (read text.now)) }
{
    match cs_tree::tree_of(alloc, text, scratch) {
        Ok(tree) => {
            if tree.is_object() {
                return Ok(Some(tree));
            }
            Ok(None)
        }
        Err(TreeFault::NotJson) => Ok(None),
        Err(TreeFault::Memory) => Err(Memory),
    }
}
