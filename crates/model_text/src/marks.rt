// The marks of the records, and their bytes.
// Assumes nothing.
ghost use Rattle.std.specs.Prelude.{◌≡◌, [], ◌∷◌, ◌+◌, ◌≤◌, length, get_or};
ghost use Rattle.meaning.specs.Text.ModelText.{form};
ghost use Rattle.meaning.specs.Text.ModelReader.{mark_of};
ghost use Rattle.model_text.specs.Marks.{kind_of, kind_in};

// The mark of a record: PO, CK, TK, LO, IV, ED, GU, RS, EN.
#[derive(Clone, Copy, Debug, PartialEq, Eq)]
pub(crate) enum Mark {
    Policy,
    Clocks,
    Task,
    Location,
    Limit,
    Edge,
    Bound,
    Reset,
    End,
}

const MARKS: [Mark; 9] = [
    Mark::Policy,
    Mark::Clocks,
    Mark::Task,
    Mark::Location,
    Mark::Limit,
    Mark::Edge,
    Mark::Bound,
    Mark::Reset,
    Mark::End,
];

// The two bytes of a mark.
#[tactic(auto, unfolding(meaning::specs::Text::ModelText::form))]
pub(crate) fn bytes(mark: Mark) -> [u8; 2]
    ensures { result ≡ (form (kind_of mark)).first ∷ (form (kind_of mark)).second ∷ [] }
{
    match mark {
        Mark::Policy => [b'P', b'O'],
        Mark::Clocks => [b'C', b'K'],
        Mark::Task => [b'T', b'K'],
        Mark::Location => [b'L', b'O'],
        Mark::Limit => [b'I', b'V'],
        Mark::Edge => [b'E', b'D'],
        Mark::Bound => [b'G', b'U'],
        Mark::Reset => [b'R', b'S'],
        Mark::End => [b'E', b'N'],
    }
}

// The mark at `at`.
#[tactic(auto, using(crate::proofs::Laws::Marks::none_laws))]
pub(crate) fn read_mark(s: &[u8], at: usize) -> Option<Mark>
    requires { at ≤ length s.now }
    ensures { kind_in result ≡ mark_of (get_or s.now at 0) (get_or s.now (at + 1) 0) }
{
    let first = lines::byte_at(s, at);
    let second = lines::byte_at(s, at + 1);
    for mark in MARKS {
        if bytes(mark) == [first, second] {
            return Some(mark);
        }
    }
    None
}
