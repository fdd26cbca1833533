//! What two texts have in common at their fronts.
ghost use Rattle.std.specs.Prelude.{◌≡◌, ◌≤◌, length, take};
ghost use Rattle.host_names.specs.Cells.{text_of};
ghost use Rattle.touch_index.specs.Postings.{SharesFront};

use host_names::Cell;

/// How many bytes at the front of two texts are the same.
fn same_bytes(one: &[u8], other: &[u8]) -> usize
    ensures same { take result one.now ≡ take result other.now }
    ensures within { result ≤ length other.now }
{
    let mut len = 0;
    'bytes: while len < one.len() && len < other.len() && one[len] == other[len] {
        len += 1;
    }
    len
}

/// How many bytes at the front of a cell's path are at the front of another cell's path too. They are none if the two are no paths of one site.
pub(crate) fn shared_front(one: &Cell, other: &Cell) -> usize
    ensures shared { SharesFront result one.now other.now }
    ensures within { result ≤ length (text_of other.now) }
{
    match (one, other) {
        (Cell::Live(site, path), Cell::Live(own, longer)) if site == own => {
            same_bytes(path.as_str().as_bytes(), longer.as_str().as_bytes())
        }
        _ => 0,
    }
}
