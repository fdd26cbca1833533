//! Seats that are given back, where a desk is closed.
ghost use Rattle.std.specs.Prelude.{◌≡◌, ◌+◌, length, sum};
ghost use Rattle.shared_desk.specs.Closings.{made_of, seats_of};

use site_desk::{DeskName, Returned, Seat};

/// One more seat is given back.
fn give_back<J: DeskName>(all: Option<Returned<J>>, seat: Seat<J>) -> Returned<J>
    ensures seats { result.seats ≡ seats_of all + 1 }
    ensures made { result.made ≡ made_of all + seat }
{
    match all {
        Some(mut all) => {
            all.add(seat);
            all
        }
        None => Returned::of(seat),
    }
}

/// All of these seats together, if there are any.
pub(crate) fn give_all_back<J: DeskName>(seats: Vec<Seat<J>>) -> Option<Returned<J>>
    ensures seats { seats_of result ≡ length seats.items }
    ensures made { made_of result ≡ sum seats.items }
{
    let mut all = None;
    for seat in seats {
        all = Some(give_back(all, seat));
    }
    all
}
