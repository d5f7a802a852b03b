ghost use Rattle.std.specs.Prelude.{◌≡◌};
ghost use Rattle.cs_ddl.specs.Token as spec;

pub(crate) fn is_reserved(word: &[u8]) -> bool
    ensures { result ≡ spec.is_reserved word.now }
{
    word.eq_ignore_ascii_case(b"all")
        || word.eq_ignore_ascii_case(b"asc")
        || word.eq_ignore_ascii_case(b"false")
        || word.eq_ignore_ascii_case(b"for")
        || word.eq_ignore_ascii_case(b"not")
        || word.eq_ignore_ascii_case(b"null")
        || word.eq_ignore_ascii_case(b"true")
}
