ghost use Rattle.std.specs.Prelude.{◌≡◌, ◌++◌, ◌<◌, [], codes, Some, None, not, ◌||◌, IfOk, IfSome, MatchResult, length, slice_index_or, option_copied};
ghost use Rattle.std.specs.Str.Lossy.{utf8_lossy};
ghost use Rattle.cs_types.specs.Stamp.{stamp_reading};
ghost use Rattle.cs_link.specs.declared.refusal.ReadRefusal.TheVariants.{ArgumentMissing};
ghost use Rattle.cs_schema.specs.declared.types.Stream.{Stream as AStream};
ghost use Rattle.cs_steps.specs.Query.{is_text, stream_read, moment_of, token_of, heartbeat_of, is_null, takes, stands_among, wrong_argument, value_of, argument_named, start_in, end_in, token_in, heartbeat_in, arguments_refusal, query_refusal, args_of, milliseconds, Tells};

use crate::ReadFault;
use cs_ddl::{Argument, Literal, ReadQuery, Word};
use cs_link::{ReadArgs, ReadRefusal};
use cs_schema::Stream;
use cs_types::{Duplicate, Memory, Stamp, Text, Token, are_digits};
use std::alloc::Global;

/// The most milliseconds that a heartbeat may have.
const MOST: u32 = 300000;

fn is_word(word: &Word, text: &[u8]) -> bool
    ensures { result ≡ is_text word.now text.now }
{
    word.as_slice() == text
}

/// Whether a function reads the stream of a name.
fn reads(function: &[u8], name: &str) -> bool
    ensures { result ≡ is_text function.now (codes "READ_" ++ name.now) }
{
    match function.strip_prefix(b"READ_") {
        Some(rest) => rest == name.as_bytes(),
        None => false,
    }
}

/// The place of the stream that a function reads.
fn stream_read(function: &Word, streams: &[Stream]) -> Option<usize>
    ensures place { result ≡ stream_read function.now streams.now }
    ensures inside { IfSome result (λ place. place < length streams.now) }
{
    let mut place = 0;
    while place < streams.len() {
        if reads(function.as_slice(), streams[place].name.as_str()) {
            return Some(place);
        }
        place += 1;
    }
    None
}

fn moment(value: &Literal) -> Option<Stamp>
    ensures { result ≡ moment_of value.now }
{
    match value {
        Literal::Null => None,
        Literal::Text(text) => stamp(text.as_slice()),
        Literal::Timestamp(text) => stamp(text.as_slice()),
        Literal::Number(_digits) => None,
    }
}

fn stamp(text: &[u8]) -> Option<Stamp>
    ensures { result ≡ stamp_reading text.now }
{
    match Stamp::read(text) {
        Ok(stamp) => Some(stamp),
        Err(_fault) => None,
    }
}

fn token(alloc: Global, value: &Literal) -> Result<Option<Token>, Memory>
    ensures { IfOk result (λ o. o ≡ token_of value.now) }
{
    match value {
        Literal::Null => Ok(None),
        Literal::Text(text) => Token::of(alloc, text.as_slice()),
        Literal::Timestamp(_text) => Ok(None),
        Literal::Number(_digits) => Ok(None),
    }
}

/// The number that digits write, where it is one that a heartbeat may have, else 0.
fn milliseconds(digits: &[u8]) -> u32
    ensures { result ≡ milliseconds digits.now }
{
    if !are_digits(digits) {
        return 0;
    }
    let mut number: u32 = 0;
    for digit in digits {
        number = number * 10 + u32::from(*digit - b'0');
        if MOST < number {
            return 0;
        }
    }
    number
}

fn heartbeat(value: &Literal) -> Option<u32>
    ensures { result ≡ heartbeat_of value.now }
{
    match value {
        Literal::Null => None,
        Literal::Text(_text) => None,
        Literal::Timestamp(_text) => None,
        Literal::Number(digits) => Some(milliseconds(digits.as_slice())),
    }
}

fn is_null(value: &Literal) -> bool
    ensures { result ≡ is_null value.now }
{
    match value {
        Literal::Null => true,
        Literal::Text(_text) => false,
        Literal::Timestamp(_text) => false,
        Literal::Number(_digits) => false,
    }
}

/// Whether the argument of a name takes a value: NULL, or one of its type.
fn takes(alloc: Global, name: &Word, value: &Literal) -> Result<bool, Memory>
    ensures { IfOk result (λ b. b ≡ takes name.now value.now) }
{
    if is_word(name, b"start_timestamp") {
        return Ok(is_null_or(value, moment(value).is_some()));
    }
    if is_word(name, b"end_timestamp") {
        return Ok(is_null_or(value, moment(value).is_some()));
    }
    if is_word(name, b"partition_token") {
        let token = token(alloc, value)?;
        return Ok(is_null_or(value, token.is_some()));
    }
    if is_word(name, b"heartbeat_milliseconds") {
        return Ok(is_null_or(value, heartbeat(value).is_some()));
    }
    Ok(is_word(name, b"read_options"))
}

fn is_null_or(value: &Literal, other: bool) -> bool
    ensures { result ≡ (is_null value.now || other) }
{
    if is_null(value) {
        return true;
    }
    other
}

fn stands_among(name: &Word, arguments: &[Argument]) -> bool
    ensures { result ≡ stands_among name.now arguments.now }
{
    for argument in arguments {
        if is_word(&argument.name, name.as_slice()) {
            return true;
        }
    }
    false
}

fn text(alloc: Global, word: &Word) -> Result<Text, Memory>
    ensures { IfOk result (λ t. t ≡ utf8_lossy word.now) }
{
    let read = String::from_utf8_lossy(alloc, word.as_slice())?;
    Text::of(alloc, read.as_str())
}

/// The name of the first argument that stands among those before it, or that does not take its
/// value. At most six are looked at, since there are five names.
fn wrong_argument(alloc: Global, arguments: &[Argument]) -> Result<Option<Text>, Memory>
    ensures { IfOk result (λ o. o ≡ wrong_argument [] arguments.now) }
{
    let mut place = 0;
    while place < arguments.len() {
        let argument = &arguments[place];
        let earlier = arguments.split_at(place).0;
        if stands_among(&argument.name, earlier) {
            return Ok(Some(text(alloc, &argument.name)?));
        }
        if !takes(alloc, &argument.name, &argument.value)? {
            return Ok(Some(text(alloc, &argument.name)?));
        }
        place += 1;
    }
    Ok(None)
}

fn argument_named<'a>(name: &[u8], arguments: &'a [Argument]) -> Option<&'a Literal>
    ensures { option_copied result ≡ argument_named name.now arguments.now }
{
    for argument in arguments {
        if is_word(&argument.name, name) {
            return Some(&argument.value);
        }
    }
    None
}

fn moment_in(name: &[u8], arguments: &[Argument]) -> Option<Stamp>
    ensures { result ≡ moment_of (value_of name.now arguments.now) }
{
    match argument_named(name, arguments) {
        Some(value) => moment(value),
        None => None,
    }
}

fn token_in(alloc: Global, arguments: &[Argument]) -> Result<Option<Token>, Memory>
    ensures { IfOk result (λ o. o ≡ token_in arguments.now) }
{
    match argument_named(b"partition_token", arguments) {
        Some(value) => token(alloc, value),
        None => Ok(None),
    }
}

fn heartbeat_in(arguments: &[Argument]) -> Option<u32>
    ensures { result ≡ heartbeat_in arguments.now }
{
    match argument_named(b"heartbeat_milliseconds", arguments) {
        Some(value) => heartbeat(value),
        None => None,
    }
}

fn has_options(arguments: &[Argument]) -> bool
    ensures { result ≡ not (is_null (value_of (codes "read_options") arguments.now)) }
{
    match argument_named(b"read_options", arguments) {
        Some(value) => !is_null(value),
        None => false,
    }
}

/// The typed arguments of a READ of the stream of this name, or the first of the refusals
/// `ArgumentType`, `ArgumentMissing` and `ReadOptions`.
fn args(alloc: Global, stream: &Text, arguments: &[Argument]) -> Result<ReadArgs, ReadFault>
    ensures refused { MatchResult result (λ _. arguments_refusal arguments.now ≡ None) (λ e. Tells (arguments_refusal arguments.now) e) }
    ensures args { IfOk result (λ a. a ≡ args_of stream.now arguments.now) }
{
    if let Some(name) = wrong_argument(alloc, arguments)? {
        return Err(ReadFault::Refused(ReadRefusal::ArgumentType(name)));
    }
    let Some(start) = moment_in(b"start_timestamp", arguments) else {
        return Err(missing(alloc, "start_timestamp"));
    };
    let Some(heartbeat_ms) = heartbeat_in(arguments) else {
        return Err(missing(alloc, "heartbeat_milliseconds"));
    };
    if has_options(arguments) {
        return Err(ReadFault::Refused(ReadRefusal::ReadOptions));
    }
    Ok(ReadArgs {
        stream: stream.copy()?,
        start,
        end: moment_in(b"end_timestamp", arguments),
        token: token_in(alloc, arguments)?,
        heartbeat_ms,
    })
}

/// The refusal of a query without the argument of this name.
fn missing(alloc: Global, name: &str) -> ReadFault
    ensures { Tells (Some (ArgumentMissing name.now)) result }
{
    match Text::of(alloc, name) {
        Ok(name) => ReadFault::Refused(ReadRefusal::ArgumentMissing(name)),
        Err(Memory) => ReadFault::Memory,
    }
}

/// The place of the stream that a query reads, and the typed arguments of the READ. A query that is
/// not of a READ of one of these streams is refused, by the first of `UnknownFunction`,
/// `ArgumentType`, `ArgumentMissing` and `ReadOptions`; what its times and its token refuse is told
/// later.
pub fn read_args(
    alloc: Global,
    streams: &[Stream],
    query: &ReadQuery,
) -> Result<(usize, ReadArgs), ReadFault>
    ensures refused { MatchResult result (λ _. query_refusal streams.now query.now ≡ None) (λ e. Tells (query_refusal streams.now query.now) e) }
    ensures stream { IfOk result (λ x. (stream_read query.now.function streams.now ≡ Some x.0) × (x.0 < length streams.now)) }
    ensures args { (s : AStream) → IfOk result (λ x. x.1 ≡ args_of (slice_index_or streams.now x.0 s).name query.now.arguments) }
{
    let Some(place) = stream_read(&query.function, streams) else {
        return Err(ReadFault::Refused(ReadRefusal::UnknownFunction));
    };
    let args = args(alloc, &streams[place].name, query.arguments.as_slice())?;
    Ok((place, args))
}
