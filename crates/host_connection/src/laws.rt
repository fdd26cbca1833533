//! What the steps of a connection are together. Each function does nothing: its contract is the law.
ghost use Rattle.std.specs.Prelude.{List};
ghost use Rattle.host_connection.specs.Carrying.{Carries, IsFresh};
ghost use Rattle.host_connection.specs.Walks.{AreSteps, LastComes, LastLeads, Step};
ghost use Rattle.host_connection.specs.declared.steps.Connection.{Connection};

use crate::services::Service;
use http_wire::Duplex;

/// Over any list of steps, each of which begins where the one before ended, the events of all together are those that the theorem of the whole
/// connection allows, wherever the stream had to wait. The services that are lent need not be one: each step begins with what the one before left.
pub fn steps_are_a_connection<D: Duplex, S: Service>()
    ensures leads { (start now : D) (first host : S) (c : Connection) (steps : List (Step D S))
        → Carries S.answers D.saw (Unit {0}) start first now host c
        → AreSteps S.answers D.saw (Unit {0}) D.waits now host c steps
        → LastLeads S.answers D.saw (Unit {0}) D.waits start first now host c steps }
    ensures comes { (start : D) (first : S) (c : Connection) (steps : List (Step D S)) → IsFresh c
        → AreSteps S.answers D.saw (Unit {0}) D.waits start first c steps
        → LastComes S.answers D.saw start first start steps }
{}
