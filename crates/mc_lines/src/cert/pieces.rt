// The lines of a document, one after the other.
ghost use Rattle.std.specs.Prelude.{◌≡◌, ◌+◌, ◌<◌, ◌≤◌, ◌∷◌, [], length, drop, MatchOption};
ghost use Rattle.mc_lines.specs.Cert.Lines.{lines_of, line_len};

fn line_len(bytes: &[u8]) -> usize
    ensures value { result ≡ line_len bytes.now }
    ensures within { result ≤ length bytes.now }
{
    let mut n = 0;
    for b in bytes {
        if *b == b'\n' {
            return n;
        }
        n += 1;
    }
    n
}

fn after(bytes: &[u8], n: usize) -> &[u8]
    requires { n ≤ length bytes.now }
    ensures { result.now ≡ drop (n + 1) bytes.now }
{
    if n < bytes.len() {
        &bytes[n + 1..]
    } else {
        &[]
    }
}

/// The first line of a text, and what is after its line feed; None where there is nothing.
pub fn first_line(bytes: &[u8]) -> Option<(&[u8], &[u8])>
    ensures lines { MatchOption result (lines_of bytes.now ≡ []) (λ r. lines_of bytes.now ≡ r.0.now ∷ lines_of r.1.now) }
    ensures shorter { MatchOption result (bytes.now ≡ []) (λ r. length r.1.now < length bytes.now) }
{
    if bytes.is_empty() {
        return None;
    }
    let n = line_len(bytes);
    Some((&bytes[..n], after(bytes, n)))
}
