// The kinds of bytes.
ghost use Rattle.std.specs.Prelude.{◌≡◌};
ghost use Rattle.mc_c_syntax.specs.Lex.Bytes.{is_blank, is_separator, is_letter, is_digit, is_word, is_double_mark, is_single_mark};

pub fn is_blank(b: u8) -> bool
    ensures { result ≡ is_blank b }
{
    b == b' ' || b == b'\t'
}

pub fn is_separator(b: u8) -> bool
    ensures { result ≡ is_separator b }
{
    is_blank(b) || b == b'\r' || b == b'\n'
}

pub fn is_letter(b: u8) -> bool
    ensures { result ≡ is_letter b }
{
    b.is_ascii_alphabetic() || b == b'_'
}

pub fn is_digit(b: u8) -> bool
    ensures { result ≡ is_digit b }
{
    b.is_ascii_digit()
}

pub fn is_word(b: u8) -> bool
    ensures { result ≡ is_word b }
{
    is_letter(b) || is_digit(b)
}

pub fn is_double_mark(a: u8, b: u8) -> bool
    ensures { result ≡ is_double_mark a b }
{
    match a {
        b'-' => b == b'>' || b == b'-' || b == b'=',
        b'+' => b == b'+' || b == b'=',
        b'=' | b'!' => b == b'=',
        b'<' => b == b'=' || b == b'<',
        b'>' => b == b'=' || b == b'>',
        b'&' => b == b'&',
        b'|' => b == b'|',
        _ => false,
    }
}

pub fn is_single_mark(b: u8) -> bool
    ensures { result ≡ is_single_mark b }
{
    matches!(
        b,
        b'{' | b'}'
            | b'('
            | b')'
            | b'['
            | b']'
            | b';'
            | b','
            | b':'
            | b'.'
            | b'='
            | b'+'
            | b'-'
            | b'*'
            | b'/'
            | b'%'
            | b'<'
            | b'>'
            | b'!'
            | b'&'
            | b'|'
            | b'^'
            | b'~'
            | b'?'
            | b'#'
            | b'"'
            | b'\''
    )
}
