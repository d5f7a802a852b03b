ghost use Rattle.std.specs.Prelude.{◌≡◌, ◌∷◌, [], IfOk};

use cs_partitions::{Finder, Layout, LayoutFault};
use cs_place::{Part, Place};
use cs_types::{Items, Memory, Stamp, Text, Token};
use std::alloc::Global;
use std::test::Fail;

fn stream(alloc: Global) -> Result<Text, Memory>
    ensures { IfOk result (λ text. text ≡ 83 ∷ []) }
{
    Text::of(alloc, "S")
}

fn moment(us: u64) -> Result<Stamp, LayoutFault> {
    match Stamp::of(us) {
        Some(stamp) => Ok(stamp),
        None => Err(LayoutFault::StampNotAfter),
    }
}

/// The token of the part of S with this digit as its number.
fn token(alloc: Global, digit: u8) -> Result<Option<Token>, Memory> {
    let mut bytes = Vec::new(alloc);
    bytes.extend_from_slice(b"S-0000")?;
    bytes.push(digit)?;
    Token::of(alloc, bytes.as_slice())
}

fn tokens(alloc: Global, digits: &str) -> Result<Items<Token>, Memory> {
    let mut tokens = Items::new(alloc);
    for digit in digits.as_bytes() {
        if let Some(token) = token(alloc, *digit)? {
            tokens.push(token)?;
        }
    }
    Ok(tokens)
}

/// Places of one byte.
fn places(alloc: Global, keys: &str) -> Result<Items<Place>, Memory> {
    let mut places = Items::new(alloc);
    for key in keys.as_bytes() {
        places.push(place(alloc, &[*key])?)?;
    }
    Ok(places)
}

fn place(alloc: Global, bytes: &[u8]) -> Result<Place, Memory> {
    Ok(Place {
        bytes: Items::from_slice(alloc, bytes)?,
    })
}

fn reshape(
    alloc: Global,
    layout: &mut Layout,
    us: u64,
    digits: &str,
    keys: &str,
) -> Result<(), LayoutFault> {
    let tokens = tokens(alloc, digits)?;
    let places = places(alloc, keys)?;
    layout.reshape(moment(us)?, tokens.as_slice(), places.as_slice())
}

/// The layout of S, created at 1 and split at the place d at 5.
fn split(alloc: Global) -> Result<Layout, LayoutFault> {
    let name = stream(alloc)?;
    let mut layout = Layout::new(alloc, &name, moment(1)?)?;
    reshape(alloc, &mut layout, 5, "0", "d")?;
    Ok(layout)
}

/// What was made; a test has it.
fn done<T: Drop>(answer: Result<T, LayoutFault>) -> Result<T, Memory> {
    match answer {
        Ok(made) => Ok(made),
        Err(_) => Err(Memory),
    }
}

/// That layout after a reshape of these parts at 6.
fn reshaped(alloc: Global, digits: &str, keys: &str) -> Result<Layout, LayoutFault> {
    let mut layout = split(alloc)?;
    reshape(alloc, &mut layout, 6, digits, keys)?;
    Ok(layout)
}

/// What a reshape of the split layout answers, in words; nothing where it is done.
fn answer(alloc: Global, us: u64, digits: &str, keys: &str) -> Result<String, Memory> {
    let mut layout = done(split(alloc))?;
    match reshape(alloc, &mut layout, us, digits, keys) {
        Ok(()) => Ok(String::new(alloc)),
        Err(fault) => Ok(format!(in alloc; "{fault}")?),
    }
}

#[test]
fn each_refusal_has_its_words(rt: HostRuntime) -> Result<(), Fail> {
    for (us, digits, keys, want) in [
        (6, "9", "", "there is no part S-00009"),
        (6, "0", "", "this part has ended: S-00000"),
        (6, "21", "", "the parts are no neighbours in order"),
        (6, "", "", "the parts are no neighbours in order"),
        (6, "2", "d", "a border is not inside of the parts' range"),
        (6, "1", "22", "the borders do not rise"),
        (5, "1", "", "the moment is not above the parts' first"),
        (6, "1", "2", ""),
    ] {
        let found = answer(rt.alloc(), us, digits, keys)?;
        assert!(rt; found.as_str() == want, "{digits} {keys}");
    }
    Ok(())
}

/// What a reshape of the lower of the two parts with so many borders answers, in words.
fn crowded(alloc: Global, borders: u32) -> Result<String, LayoutFault> {
    let mut layout = split(alloc)?;
    let mut places = Items::new(alloc);
    for number in 1..=borders {
        places.push(place(alloc, &number.to_be_bytes())?)?;
    }
    let tokens = tokens(alloc, "1")?;
    match layout.reshape(moment(6)?, tokens.as_slice(), places.as_slice()) {
        Ok(()) => Ok(String::new(alloc)),
        Err(fault) => Ok(format!(in alloc; "{fault}")?),
    }
}

#[test]
fn parts_are_limited(rt: HostRuntime) -> Result<(), Fail> {
    for (borders, want) in [
        (63, ""),
        (64, "more than 64 parts are named or made"),
        (65_532, "more than 64 parts are named or made"),
        (65_533, "the stream would have more than 65536 parts"),
    ] {
        let found = done(crowded(rt.alloc(), borders))?;
        assert!(rt; found.as_str() == want, "{borders}");
    }
    Ok(())
}

/// The last digits of the tokens of parts.
fn digits_of(alloc: Global, tokens: &[Token]) -> Result<String, Memory> {
    let mut digits = String::new(alloc);
    for token in tokens {
        if let Some(digit) = token.bytes().last() {
            digits.push(char::from(*digit))?;
        }
    }
    Ok(digits)
}

/// The parents of the part at an index.
fn parents(alloc: Global, layout: &Layout, index: usize) -> Result<String, Memory> {
    match layout.parts().get(index) {
        Some(part) => digits_of(alloc, part.parents.as_slice()),
        None => Ok(String::new(alloc)),
    }
}

#[test]
fn new_parts_name_those_whose_places_they_have(rt: HostRuntime) -> Result<(), Fail> {
    for (keys, index, want) in [("", 3, "12"), ("2", 3, "1"), ("2", 4, "12"), ("x", 4, "2")] {
        let layout = done(reshaped(rt.alloc(), "12", keys))?;
        let found = parents(rt.alloc(), &layout, index)?;
        assert!(rt; found.as_str() == want, "{keys} {index}");
    }
    Ok(())
}

fn named(alloc: Global, parts: &[Part]) -> Result<String, Memory> {
    let mut digits = String::new(alloc);
    for part in parts {
        if let Some(digit) = part.token.bytes().last() {
            digits.push(char::from(*digit))?;
        }
    }
    Ok(digits)
}

/// The children of the part at an index.
fn children(alloc: Global, layout: &Layout, index: usize) -> Result<String, Memory> {
    if index >= layout.parts().len() {
        return Ok(String::new(alloc));
    }
    let children = layout.children(index)?;
    named(alloc, children.as_slice())
}

#[test]
fn parts_have_their_children(rt: HostRuntime) -> Result<(), Fail> {
    let layout = done(reshaped(rt.alloc(), "12", "2"))?;
    for (index, want) in [(0, "12"), (1, "34"), (2, "4"), (3, "")] {
        let found = children(rt.alloc(), &layout, index)?;
        assert!(rt; found.as_str() == want, "{index}");
    }
    Ok(())
}

/// The parts that are live at a moment.
fn live(alloc: Global, layout: &Layout, us: u64) -> Result<String, LayoutFault> {
    let live = layout.live_at(moment(us)?)?;
    Ok(named(alloc, live.as_slice())?)
}

#[test]
fn live_parts_stand_in_order_of_low(rt: HostRuntime) -> Result<(), Fail> {
    let layout = done(reshaped(rt.alloc(), "1", "2"))?;
    for (us, want) in [(4, "0"), (5, "12"), (6, "342")] {
        let found = done(live(rt.alloc(), &layout, us))?;
        assert!(rt; found.as_str() == want, "{us}");
    }
    Ok(())
}

/// The index of the part that has the place of one byte at a moment.
fn holder(alloc: Global, layout: &Layout, key: u8, us: u64) -> Result<usize, LayoutFault> {
    let at = moment(us)?;
    if at < layout.created() {
        return Err(LayoutFault::StampNotAfter);
    }
    let place = place(alloc, &[key])?;
    Ok(layout.holder(&place, at))
}

#[test]
fn a_border_is_of_the_part_above_it(rt: HostRuntime) -> Result<(), Fail> {
    let layout = done(split(rt.alloc()))?;
    for (key, us, want) in [(100, 4, 0), (99, 5, 1), (100, 5, 2)] {
        let found = done(holder(rt.alloc(), &layout, key, us))?;
        assert_eq!(rt; found, want);
    }
    Ok(())
}

/// The index of the part that a finder finds.
fn found(
    alloc: Global,
    layout: &Layout,
    finder: &mut Finder,
    key: u8,
    us: u64,
) -> Result<usize, LayoutFault> {
    let at = moment(us)?;
    if at < layout.created() {
        return Err(LayoutFault::StampNotAfter);
    }
    let place = place(alloc, &[key])?;
    Ok(layout.holder_by(finder, &place, at)?)
}

#[test]
fn a_finder_goes_on_from_moment_to_moment(rt: HostRuntime) -> Result<(), Fail> {
    let layout = done(reshaped(rt.alloc(), "12", ""))?;
    let mut finder = Finder::new(rt.alloc());
    for (key, us, want) in [(100, 4, 0), (99, 5, 1), (100, 5, 2), (99, 6, 3), (99, 5, 1)] {
        let index = done(found(rt.alloc(), &layout, &mut finder, key, us))?;
        assert_eq!(rt; index, want);
    }
    Ok(())
}

/// The index of the part of a token.
fn index_of(alloc: Global, layout: &Layout, text: &str) -> Result<Option<usize>, Memory> {
    match Token::of(alloc, text.as_bytes())? {
        Some(token) => Ok(layout.index_of(&token)),
        None => Ok(None),
    }
}

#[test]
fn parts_are_found_by_their_tokens(rt: HostRuntime) -> Result<(), Fail> {
    let layout = done(split(rt.alloc()))?;
    for (text, want) in [
        ("S-00002", Some(2)),
        ("S-00003", None),
        ("T-00002", None),
        ("2", None),
    ] {
        let found = index_of(rt.alloc(), &layout, text)?;
        assert!(rt; found == want, "{text}");
    }
    Ok(())
}
