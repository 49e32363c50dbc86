ghost use Rattle.std.specs.Prelude.{◌≡◌, take, MatchOption};
ghost use Rattle.mk_model.specs.Tables.{is_space, tokens};
ghost use Rattle.mk_files.specs.Tokens.{IsStretch, IsTokenCut, IsNextToken};

/// A token of a text: its first byte, and the byte behind its last.
#[derive(Clone, Copy)]
pub struct Token {
    pub start: usize,
    pub end: usize,
}

/// White space: the bytes 9 to 13, and 32.
fn is_white(byte: u8) -> bool
    ensures { result ≡ is_space byte }
{
    matches!(byte, 9..=13 | b' ')
}

/// How many bytes at the front are white space, or how many are not.
fn stretch_len(bytes: &[u8], white: bool) -> usize
    ensures { IsStretch bytes.now white result }
{
    for (i, byte) in bytes.iter().enumerate() {
        if is_white(*byte) != white {
            return i;
        }
    }
    bytes.len()
}

/// The first token behind a byte.
pub fn next_token(bytes: &[u8], from: usize) -> Option<Token>
    requires { IsTokenCut bytes.now from }
    ensures { MatchOption result
        (tokens bytes.now ≡ tokens (take from bytes.now))
        (IsNextToken bytes.now from) }
{
    let start = from + stretch_len(&bytes[from..], true);
    if start == bytes.len() {
        return None;
    }
    let end = start + stretch_len(&bytes[start..], false);
    Some(Token { start, end })
}
