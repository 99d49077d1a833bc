// The mark of a record.
ghost use Rattle.std.specs.Prelude.{◌≡◌, ◌+◌, ◌≤◌, length, get_or};
ghost use Rattle.zone_text.specs.Marked.{mark_of};

// The four marks: ZN, BD, GO and EN.
#[derive(Clone, Copy, Debug, PartialEq, Eq)]
pub(crate) enum Mark {
    Order,
    Bound,
    Claims,
    End,
}

// The mark at `at`, where one stands.
#[tactic(auto, unfolding(crate::specs::Marked::mark_of))]
pub(crate) fn mark_at(s: &[u8], at: usize) -> Option<Mark>
    requires { at ≤ length s.now }
    ensures { result ≡ mark_of (get_or s.now at 0) (get_or s.now (at + 1) 0) }
{
    match (lines::byte_at(s, at), lines::byte_at(s, at + 1)) {
        (b'Z', b'N') => Some(Mark::Order),
        (b'B', b'D') => Some(Mark::Bound),
        (b'G', b'O') => Some(Mark::Claims),
        (b'E', b'N') => Some(Mark::End),
        _ => None,
    }
}
