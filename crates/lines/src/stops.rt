// The first comma or full stop of a text.
// Assumes nothing.
ghost use Rattle.std.specs.Prelude.{◌≡◌, position};
ghost use Rattle.meaning.specs.Text.Records.{is_stop, first_stop};

#[tactic(auto, unfolding(meaning::specs::Text::Records::is_stop))]
fn is_stop(b: u8) -> bool
    ensures { result ≡ is_stop b }
{
    b == b',' || b == b'.'
}

// Where the first comma or full stop stands.
fn stop_in(s: &[u8]) -> Option<usize>
    ensures { result ≡ position is_stop s.now }
{
    s.iter().position(|b| is_stop(*b))
}

// How many bytes stand before the first comma or full stop; all of them where there is none.
#[tactic(auto, using(crate::proofs::Laws::Stops::first_stop_is))]
pub fn first_stop(s: &[u8]) -> usize
    ensures { result ≡ first_stop s.now }
{
    stop_in(s).unwrap_or(s.len())
}
