//! Lines and columns.
ghost use Rattle.std.specs.Prelude.{◌≡◌, ◌≤◌, not, length, count_by};
ghost use Rattle.std.specs.List.{suffix_len};
ghost use Rattle.sexp_read.specs.Place.{is_line_feed, line_at, column_at};

/// The line and the column of a place, both counted from 1. Line feeds alone end lines, and columns are counted in bytes.
pub fn line_column(bytes: &[u8], place: usize) -> (usize, usize)
    requires { place ≤ length bytes.now }
    ensures line { result.0 ≡ line_at bytes.now place }
    ensures column { result.1 ≡ column_at bytes.now place }
{
    let before = &bytes[..place];
    (line_feeds(before) + 1, last_line_len(before) + 1)
}

fn line_feeds(bytes: &[u8]) -> usize
    ensures count { result ≡ count_by is_line_feed bytes.now }
    ensures within { result ≤ length bytes.now }
{
    bytes.iter().filter(|b| **b == b'\n').count()
}

// How many bytes stand behind the last line feed.
fn last_line_len(bytes: &[u8]) -> usize
    ensures len { result ≡ suffix_len (λ b. not (is_line_feed b)) bytes.now }
    ensures within { result ≤ length bytes.now }
{
    bytes.iter().rev().take_while(|b| **b != b'\n').count()
}
