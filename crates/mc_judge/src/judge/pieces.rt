// Lines in pieces of a text.
ghost use Rattle.std.specs.Prelude.{◌≡◌, ◌≢◌, ◌++◌, ◌∷◌, ◌≤◌, length, MatchOption};
ghost use Rattle.mc_lines.specs.Cert.Lines.{line_len};
ghost use Rattle.mc_judge.specs.Judge.Cuts.{HasNoFeed};

/// How many bytes stand before the first line feed, or in all.
fn line_len(bytes: &[u8]) -> usize
    ensures value { result ≡ line_len bytes.now }
    ensures within { result ≤ length bytes.now }
{
    let mut n = 0;
    for b in bytes {
        if *b == b'\n' {
            return n;
        }
        n += 1;
    }
    n
}

/// The bytes before the first line feed, and those after it; None where there is no line feed.
pub fn whole_line(bytes: &[u8]) -> Option<(&[u8], &[u8])>
    ensures { MatchOption result (HasNoFeed bytes.now) (λ r. HasNoFeed r.0.now × (bytes.now ≡ r.0.now ++ (10 ∷ r.1.now))) }
{
    let n = line_len(bytes);
    if n < bytes.len() {
        Some((&bytes[..n], &bytes[n + 1..]))
    } else {
        None
    }
}
