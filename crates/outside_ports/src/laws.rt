//! Laws of the calls of a port. Each function states a law, and does nothing when it is called.
ghost use Rattle.std.specs.Prelude.{◌≡◌, ℕ, List, [], ◌∷◌, ◌++◌, Option, option_map};
ghost use Rattle.outside_ports.specs.Told.{Grows};
ghost use Rattle.outside_ports.specs.Port.{PortPlan, got_at, got_in, sent_in, unsent_in, recvs_in, sent_by, unsent_by};
ghost use Rattle.outside_ports.specs.MemPort.{IsInOrder, datagrams};
ghost use Rattle.outside_ports.specs.Plan.{PlanPlace, PlanStep, AreCallsOf, ClocksRise};
ghost use Rattle.outside_ports.specs.declared.port.Datagram.{Datagram as Datum};
ghost use Rattle.outside_ports.specs.declared.port.SendEnd.{SendEnd as Sending};
ghost use Rattle.outside_ports.specs.declared.port.RecvEnd.{RecvEnd as Receiving};
ghost use Rattle.outside_ports.specs.declared.port.RecvEnd.TheVariants as end;
ghost use Rattle.outside_ports.specs.declared.port.PortCall.{PortCall as Call};
ghost use Rattle.outside_ports.specs.declared.port.PortCall.TheVariants as call;

/// Where the calls grew by a call of `recv`, what was got grew by the datagram that it got, what was sent and what was to be
/// sent stayed, and the calls of `recv` grew by its moment and the clock after it.
pub fn a_call_of_recv_grows_the_lists()
    ensures got { (old new : Option (List Call)) (until clock : ℕ) (ended : Receiving) → Grows old new (call.Recv until ended clock ∷ [])
        → Grows (option_map got_in old) (option_map got_in new) (got_at ended) }
    ensures sent { (old new : Option (List Call)) (until clock : ℕ) (ended : Receiving) → Grows old new (call.Recv until ended clock ∷ [])
        → Grows (option_map sent_in old) (option_map sent_in new) [] }
    ensures unsent { (old new : Option (List Call)) (until clock : ℕ) (ended : Receiving) → Grows old new (call.Recv until ended clock ∷ [])
        → Grows (option_map unsent_in old) (option_map unsent_in new) [] }
    ensures recvs { (old new : Option (List Call)) (until clock : ℕ) (ended : Receiving) → Grows old new (call.Recv until ended clock ∷ [])
        → Grows (option_map recvs_in old) (option_map recvs_in new) (record { until = until; clock = clock } ∷ []) }
{}

/// Where the calls grew by a call of `send`, what was sent grew by its datagram where it was sent, and what was to be sent
/// where the port failed. What was got and the calls of `recv` stayed.
pub fn a_call_of_send_grows_the_lists()
    ensures got { (old new : Option (List Call)) (d : Datum) (ended : Sending) → Grows old new (call.Send d ended ∷ [])
        → Grows (option_map got_in old) (option_map got_in new) [] }
    ensures sent { (old new : Option (List Call)) (d : Datum) (ended : Sending) → Grows old new (call.Send d ended ∷ [])
        → Grows (option_map sent_in old) (option_map sent_in new) (sent_by (call.Send d ended)) }
    ensures unsent { (old new : Option (List Call)) (d : Datum) (ended : Sending) → Grows old new (call.Send d ended ∷ [])
        → Grows (option_map unsent_in old) (option_map unsent_in new) (unsent_by (call.Send d ended)) }
    ensures recvs { (old new : Option (List Call)) (d : Datum) (ended : Sending) → Grows old new (call.Send d ended ∷ [])
        → Grows (option_map recvs_in old) (option_map recvs_in new) [] }
{}

/// Over the calls of a plan whose arrivals are in order the clock never falls.
pub fn the_clock_never_falls()
    ensures { (plan : PortPlan) (calls : List Call) (place : PlanPlace) → IsInOrder plan.arrivals plan.end → AreCallsOf plan calls place
        → ClocksRise 0 calls }
{}

/// What was got is the arrivals from the first on, each once and in order: with those that are left they are all of them.
pub fn arrivals_are_got_in_order()
    ensures { (plan : PortPlan) (calls : List Call) (place : PlanPlace) → AreCallsOf plan calls place
        → got_in calls ++ datagrams place.left ≡ datagrams plan.arrivals }
{}

/// A call is closed only when all arrivals were got, and the clock then stands at the end.
pub fn closed_comes_when_all_were_got()
    ensures { (plan : PortPlan) (before after : List Call) (until clock : ℕ) (place : PlanPlace)
        → AreCallsOf plan (before ++ call.Recv until end.Closed clock ∷ after) place
        → (got_in before ≡ datagrams plan.arrivals) × (clock ≡ plan.end) }
{}

/// The plan says how each call ends: there is one end, one clock and one place after it.
pub fn each_call_has_one_end()
    ensures recv { (last until : ℕ) (old new new' : PlanPlace) (ended ended' : Receiving) (clock clock' : ℕ)
        → PlanStep last old (call.Recv until ended clock) new → PlanStep last old (call.Recv until ended' clock') new'
        → (ended ≡ ended') × (clock ≡ clock') × (new ≡ new') }
    ensures send { (last : ℕ) (old new new' : PlanPlace) (d : Datum) (ended ended' : Sending)
        → PlanStep last old (call.Send d ended) new → PlanStep last old (call.Send d ended') new'
        → (ended ≡ ended') × (new ≡ new') }
{}
