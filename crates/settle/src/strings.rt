// The entry that a record names, and the strings along two paths from one position, compared.
ghost use Rattle.std.specs.Prelude.{◌≡◌, [], ◌∷◌, length};
ghost use Rattle.paths.specs.Difference.{first_difference};
ghost use Rattle.paths.specs.Compare.{compared, seen_as};
ghost use Rattle.record.specs.Answers.{read_fields};
ghost use Rattle.record.specs.Check.{entry_for};
ghost use Rattle.settle.specs.Comparing.{entries_compared, segments_compared};

use paths::{Compared, Difference};
use record::ParsedRecord;

// The entry that a record names, rebuilt from its commitment, offset and size.
pub(crate) fn entry_for(x: &ParsedRecord<'_>) -> [u8; 64]
    ensures { result ≡ entry_for (read_fields x.now) }
{
    entries::entry_of(x.commitment, x.offset, x.size)
}

// Compares two strings alone.
pub(crate) fn compare_strings(left: [u8; 64], right: [u8; 64]) -> Compared
    ensures { result ≡ compared (first_difference (left ∷ []) (right ∷ [])) }
{
    paths::compare_above(Compared::EQUAL, left, right)
}

// Compares the strings of two entry paths from one position, and below them the entries themselves.
pub(crate) fn compare_entries(
    position: u64,
    left: [u8; 64],
    left_path: &[u8],
    right: [u8; 64],
    right_path: &[u8],
) -> Option<Difference>
    requires { length left_path.now ≡ length right_path.now }
    ensures { seen_as result ≡ entries_compared position left left_path.now right right_path.now }
{
    let below = compare_strings(left, right);
    let left_node = node::node_hash(left);
    let right_node = node::node_hash(right);
    paths::compare_paths(
        position, left_node, left_path, right_node, right_path, below,
    )
    .difference()
}

// Compares the strings of two segment paths from one position.
pub(crate) fn compare_segments(
    position: u64,
    left: [u8; 32],
    left_path: &[u8],
    right: [u8; 32],
    right_path: &[u8],
) -> Option<Difference>
    requires { length left_path.now ≡ length right_path.now }
    ensures { seen_as result ≡ segments_compared position left left_path.now right right_path.now }
{
    paths::compare_paths(
        position,
        left,
        left_path,
        right,
        right_path,
        Compared::EQUAL,
    )
    .difference()
}
