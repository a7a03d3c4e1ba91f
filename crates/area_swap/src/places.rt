// Where the words stand.
ghost use Rattle.std.specs.Prelude.{◌≡◌, ℕ, ◌<◌, ◌≤◌};
ghost use Rattle.area_swap.specs.Places.{PartsAreApart, all_places, claims_place, row_place};

/// Words of different parts are so many words of 8 bytes apart: two lines of 64 bytes.
const GAP: usize = 16;

/// The version and the number of records drawn.
pub(crate) const VERSION_PLACE: usize = GAP;

/// Where the row of the first area begins.
pub(crate) const FIRST_ROW: usize = 4 * GAP;

/// Where the claims on an area are counted.
pub(crate) fn claims_at(area: usize) -> usize
    requires { area < 2 }
    ensures { result ≡ claims_place area }
{
    (2 + area) * GAP
}

/// Where the row of an area begins, if rows have so many words.
pub(crate) fn row_at(long: usize, area: usize) -> usize
    requires small { long ≤ 16777216 }
    requires one_of_two { area < 2 }
    ensures { result ≡ row_place long area }
{
    FIRST_ROW + area * (long + GAP)
}

/// How many words there are, if rows have so many.
pub(crate) fn word_count(long: usize) -> usize
    requires small { long ≤ 16777216 }
    ensures { result ≡ all_places long }
{
    4 * GAP + 2 * (long + GAP)
}

/// A law over where the words stand, and nothing is done here: the version word, the claims on each area and each area's row
/// share no cache line with one another, or with anything else.
pub fn parts_share_no_line()
    ensures { (long : ℕ) → PartsAreApart long }
{}
