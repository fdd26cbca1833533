//! Laws of deadlines, of room and of places. Each function does nothing: its contract is the law.
ghost use Rattle.std.specs.Prelude.{◌≡◌, ◌≢◌, ◌↔◌, ◌+◌, ◌*◌, ◌<◌, ◌≤◌, ℕ, Bool, List, IsSome, None, Some, false, true};
ghost use Rattle.connection_rules.specs.Paces.{is_transfer, stepped};
ghost use Rattle.connection_rules.specs.Holding.{HeldBodies, a_step, has_room, is_first, reserved, settled};
ghost use Rattle.connection_rules.specs.Least.{IsLeast, least_of};
ghost use Rattle.connection_rules.specs.Standings.{are_crowding, is_new, number_of, span, turn_of};
ghost use Rattle.connection_rules.specs.declared.paces.Pace.{Pace as AnyPace};
ghost use Rattle.connection_rules.specs.declared.paces.Stage.{Stage as AnyStage};
ghost use Rattle.connection_rules.specs.declared.paces.Stage.TheVariants.{Closing, Idle, Reply};
ghost use Rattle.connection_rules.specs.declared.stakes.Stake.{Stake as AnyStake};
ghost use Rattle.connection_rules.specs.declared.standings.Standing.{Standing as AnyStanding};
ghost use Rattle.connection_rules.specs.declared.standings.Standing.TheVariants as standing;

/// Since its time began, a body or a reply has moved fewer than 60 KiB: so it is late only where it moved so few in all that time.
pub fn a_late_transfer_is_slow()
    ensures { (old : AnyPace) (stage : AnyStage) (read written now : ℕ) → is_transfer stage ≡ true
        → (stepped old stage read written now).moved < 61440 }
{}

/// What comes while a connection closes gives it no more time: so it is late in time, however much its client sends.
pub fn a_closing_connection_gains_no_time()
    ensures { (old : AnyPace) (read now : ℕ) → old.stage ≡ Closing
        → (stepped old Closing read 0 now).since ≡ old.since }
{}

/// Of connections that were looked at in turn, the one that is found is one of them, and none of them has a lesser number.
pub fn the_one_that_is_found_has_the_least()
    ensures { (all : List (ℕ × ℕ)) → IsLeast all (least_of all) }
{}

/// If a place is needed, connections go in this order: one that closes; one that came a second ago or earlier, and of which no request was answered; a new one,
/// if more than a quarter of the connections are new; one that was answered and is idle; one that is busy; any other new one; and last one of which a thread has a
/// request. Of two that have the same to lose, the one goes for which less counts: an earlier time, or fewer bytes.
pub fn those_that_lose_least_go_first()
    ensures closing { (by other : ℕ) → turn_of standing.Closing by < turn_of standing.Unanswered other }
    ensures unanswered { (by other : ℕ) → turn_of standing.Unanswered by < turn_of standing.Crowding other }
    ensures crowding { (by other : ℕ) → turn_of standing.Crowding by < turn_of standing.Idle other }
    ensures idle { (by other : ℕ) → turn_of standing.Idle by < turn_of standing.Busy other }
    ensures busy { (by other : ℕ) → turn_of standing.Busy by < turn_of standing.New other }
    ensures new { (by other : ℕ) → turn_of standing.New by < turn_of standing.AtWork other }
    ensures least { (now : AnyStanding) (by other : ℕ) → by < other → other < span
        → turn_of now by < turn_of now other }
{}

/// New connections crowd the others exactly if they are more than a quarter of all connections.
pub fn new_ones_may_have_a_quarter_of_the_places()
    ensures { (new all : ℕ) → are_crowding new all ≡ false ↔ 4 * new ≤ all }
{}

/// One that was answered and is idle goes before a new one, unless new ones crowd the others; then a new one goes before each that was answered and doesn't
/// close. Of two new ones the one goes first that came first.
pub fn a_new_one_goes_before_idle_ones_only_where_new_ones_crowd()
    ensures idle { (n m : ℕ) (new idle : AnyStake) → is_new new ≡ true → idle.stage ≡ Idle
        → idle.is_at_work ≡ false → idle.is_answered ≡ true → number_of false new ≡ Some n
        → number_of false idle ≡ Some m → m < n }
    ensures crowding { (n m : ℕ) (new other : AnyStake) → is_new new ≡ true → other.is_answered ≡ true
        → other.stage ≢ Closing → number_of true new ≡ Some n → number_of true other ≡ Some m → n < m }
    ensures oldest { (crowds : Bool) (n m : ℕ) (one other : AnyStake) → is_new one ≡ true → is_new other ≡ true
        → one.came < other.came → other.came < span → number_of crowds one ≡ Some n
        → number_of crowds other ≡ Some m → n < m }
{
    those_that_lose_least_go_first();
}

/// One in a reply keeps its place if 256 KiB moved on its connection of late, and nothing else does. Of two that were answered, are in a reply and may go, the one
/// goes first on which less moved of late.
pub fn of_replies_the_one_that_moved_least_goes()
    ensures kept { (crowds : Bool) (stake : AnyStake) → stake.stage ≡ Reply → 262144 ≤ stake.moved
        → number_of crowds stake ≡ None }
    ensures others { (crowds : Bool) (stake : AnyStake) → stake.stage ≢ Reply → IsSome (number_of crowds stake) }
    ensures slow { (crowds : Bool) (stake : AnyStake) → stake.moved < 262144 → IsSome (number_of crowds stake) }
    ensures least { (crowds : Bool) (n m : ℕ) (one other : AnyStake) → one.stage ≡ Reply → one.is_at_work ≡ false
        → one.is_answered ≡ true → other.stage ≡ Reply → other.is_at_work ≡ false → other.is_answered ≡ true
        → one.moved < other.moved → number_of crowds one ≡ Some n → number_of crowds other ≡ Some m → n < m }
{
    those_that_lose_least_go_first();
}

/// A body that isn't the first takes a step for which there was room: after it all that the others hold has changed by what the step took, and the room that
/// was kept for it is free.
pub fn a_step_counts_what_it_took()
    ensures { (number held after : ℕ) (bodies : HeldBodies)
        → is_first number bodies.first ≡ false → has_room number bodies ≡ true
        → held ≤ bodies.others → after ≤ held + a_step
        → (settled number held after (reserved number bodies)).others + held ≡ bodies.others + after }
{}
