//! Laws of the connections of a worker. Each function does nothing: its contract is the law.
ghost use Rattle.std.specs.Prelude.{◌≡◌, ◌≢◌, ◌+◌, ◌<◌, ◌≤◌, ◌↔◌, ℕ, Bool, List, Option, IfSome, None, Some, false, true};
ghost use Rattle.std.specs.List.{sum_by};
ghost use Rattle.connection_rules.specs.Least.{IsLeast, least_of};
ghost use Rattle.connection_rules.specs.declared.limits.Limits.{Limits as AnyLimits};
ghost use Rattle.worker_connections.specs.Clients.{after, answered, back, begun_client, ended, interest_of, is_due, may_go, most_moved, number_by, runs, turn_of};
ghost use Rattle.worker_connections.specs.Places.{Held, IsFirstFree, KeepsNumbers, becomes, bytes_in, bytes_of, change_between, change_by, lost, named, numbers_from, place_at, placed, stepped};
ghost use Rattle.worker_connections.specs.declared.changes.Change.{Change as AnyChange};
ghost use Rattle.worker_connections.specs.declared.changes.Fate.TheVariants.{ClosesSide, Ends};
ghost use Rattle.worker_connections.specs.declared.changes.Name.{Name as AnyName};
ghost use Rattle.worker_connections.specs.declared.clients.Client.{Client as AnyClient};
ghost use Rattle.worker_connections.specs.declared.clients.State.TheVariants.{Away, Closing, ForRoom, Left};
ghost use Rattle.worker_connections.specs.declared.clients.Turn.TheVariants.{Drop as drop_input};
ghost use Rattle.worker_connections.specs.declared.steps.Kind.{Kind as AnyKind};
ghost use Rattle.worker_connections.specs.declared.steps.Step.{Step as AnyStep};

use connection_rules::laws::the_one_that_is_found_has_the_least;

/// An event changes the connection that it names, and no other.
pub fn an_event_changes_one_connection()
    ensures { (f : AnyClient → Option AnyClient) (name other : AnyName) (held : Held) → other.place ≢ name.place
        → named other (becomes f name held).places ≡ named other held.places }
{}

/// An event that names a connection which has ended changes nothing of the one that has its place now.
pub fn an_event_of_an_ended_connection_changes_nothing()
    ensures { (f : AnyClient → Option AnyClient) (name : AnyName) (held : Held)
        → named name held.places ≡ None → becomes f name held ≡ held }
{}

/// The events keep the numbers of connections.
pub fn events_keep_numbers()
    ensures step { (drains : Bool) (step : AnyStep) (limits : AnyLimits) (now : ℕ)
        → KeepsNumbers (stepped drains step limits now) }
    ensures back { (step : AnyStep) (limits : AnyLimits) (now : ℕ) → KeepsNumbers (back step limits now) }
    ensures answer { (has_room : Bool) (now : ℕ) → KeepsNumbers (λ c. Some (answered has_room now c)) }
    ensures end { KeepsNumbers ended }
{}

/// The name of a connection that has ended is never that of another: no event gives it back, and one that comes has a number that none before it had.
pub fn a_name_is_never_used_again()
    ensures event { (f : AnyClient → Option AnyClient) (name other : AnyName) (held : Held) → KeepsNumbers f
        → named other held.places ≡ None → named other (becomes f name held).places ≡ None }
    ensures come { (client : AnyClient) (at : ℕ) (other : AnyName) (held : Held) → IsFirstFree held.places at
        → client.number ≡ held.came → other.number < held.came → named other held.places ≡ None
        → named other (placed at client held.places) ≡ None }
{}

/// What a client sends is dropped only once our side is closed: whoever makes the changes is told to close it where it wasn't.
pub fn our_side_is_closed_before_input_is_dropped()
    ensures closed { (client : AnyClient) → turn_of client ≡ drop_input → client.state ≡ Closing }
    ensures told { (old new : AnyClient) → new.state ≡ Closing → old.state ≢ Closing
        → (change_between old (Some new)).fate ≡ ClosesSide }
    ensures at_first { (number now : ℕ) (limits : AnyLimits) → (begun_client number limits now).state ≢ Closing }
{}

/// Whoever makes the changes is told that a connection ends exactly where one more has gone: once.
pub fn each_end_is_told_once()
    ensures { (old : AnyClient) (new : Option AnyClient)
        → (change_between old new).fate ≡ Ends ↔ lost old new ≡ 1 }
{}

/// While a body waits for room, or a thread that may wait has a connection, its time doesn't run, and its socket isn't waited for. While a thread has it, it
/// gives no room.
pub fn the_time_of_one_that_waits_stands_still()
    ensures due { (client : AnyClient) (drains : Bool) (limits : AnyLimits) (now : ℕ) → runs client.state ≡ false
        → is_due drains limits now client ≡ false }
    ensures interest { (client : AnyClient) → runs client.state ≡ false → interest_of client ≡ None }
    ensures away { (client : AnyClient) (kind : AnyKind) (limits : AnyLimits) (now : ℕ) → client.state ≡ Away
        → may_go kind limits now client ≡ false }
    ensures anew { (client : AnyClient) (since now : ℕ) → client.state ≡ ForRoom since
        → (answered true now client).pace.since ≡ now }
{}

/// Each change says what the connection held and holds: so the bodies of all connections hold what these changes come to.
pub fn what_is_held_is_what_the_changes_say()
    ensures { (f : AnyClient → Option AnyClient) (name : AnyName) (held : Held) (change : AnyChange)
        → change_by f name held ≡ Some change
        → sum_by bytes_in (becomes f name held).places + bytes_of change.held
        ≡ sum_by bytes_in held.places + bytes_of change.holds }
{}

/// After a step a connection holds what the step says. One that a thread has holds the same until it is back, though it ends meanwhile.
pub fn what_is_held_is_what_the_last_step_said()
    ensures step { (step : AnyStep) (limits : AnyLimits) (now : ℕ) (client : AnyClient) → client.state ≢ Away
        → client.state ≢ Left → IfSome (after step limits now client) (λ next. next.holds ≡ step.holds) }
    ensures back { (step : AnyStep) (limits : AnyLimits) (now : ℕ) (client : AnyClient) → client.state ≡ Away
        → IfSome (back step limits now client) (λ next. next.holds ≡ step.holds) }
    ensures left { (client : AnyClient) → client.state ≡ Away
        → ended client ≡ Some (record client { state = Left }) }
    ensures gone { (step : AnyStep) (limits : AnyLimits) (now : ℕ) (client : AnyClient) → client.state ≡ Left
        → back step limits now client ≡ None }
{}

/// Of those that may have to go to give room, one that moved less of late has a lesser number, and of two that moved as much the first body has: so the worker
/// that has it says a lesser number than another one, if its connections moved as little.
pub fn the_first_body_goes_before_one_that_moved_as_little()
    ensures less { (one other : Bool) (moved more : ℕ) → moved < more → moved < most_moved
        → number_by one moved < number_by other more }
    ensures first { (moved more : ℕ) → moved ≤ more → number_by true moved < number_by false more }
{}

/// Of those that are looked for, the one that is found has the least number.
pub fn the_one_that_is_found_is_least()
    ensures { (f : AnyClient → Option ℕ) (places : List (Option AnyClient))
        → IsLeast (numbers_from f 0 places) (least_of (numbers_from f 0 places)) }
{
    the_one_that_is_found_has_the_least();
}
