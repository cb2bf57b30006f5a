//! Examples of steps, found by computation: the whole list of what is asked, of each datagram its start line, how the slot stands
//! then, and the mark. Each function states a law, and does nothing when it is called.
ghost use Rattle.std.specs.Prelude.{◌≡◌, Option, Some, None, [], ◌∷◌, codes, true, false};
ghost use Rattle.claim_words.specs.declared.By.TheVariants.{Continued, TimedOut, Cancelled};
ghost use Rattle.claim_words.specs.declared.ClaimEnd.TheVariants.{Won, Lost};
ghost use Rattle.host_meaning.specs.declared.ask.Asked.TheVariants as ask;
ghost use Rattle.host_meaning.specs.declared.ask.Heard.TheVariants as heard;
ghost use Rattle.txn_dialogue.specs.declared.happening.Happening.TheVariants.{Copy, Continue, Cancel, Timer, Request};
ghost use Rattle.txn_dialogue.specs.declared.happening.SlotTimer.TheVariants.{Branch, Suspension, Server};
ghost use Rattle.txn_dialogue.specs.declared.happening.BranchTimer.TheVariants.{Final, Unsent, Client};
ghost use Rattle.txn_client.specs.declared.machine.ClientTimer.TheVariants as client_timer;
ghost use Rattle.txn_server.specs.declared.machine.ServerTimer.TheVariants as server_timer;
ghost use Rattle.pv_values.specs.declared.run.How.TheVariants.{Drop};
ghost use Rattle.pv_table.specs.declared.facts.Outcome.TheVariants.{Relayed};
ghost use Rattle.txn_dialogue.specs.declared.mark.Mark.TheVariants.{Handled, Dropped};
ghost use Rattle.txn_dialogue.specs.declared.mark.Cause.TheVariants.{ScriptSilent};
ghost use Rattle.txn_dialogue.specs.Rounds.{Launch, after_failure_by, all_launched, launched, made, over, unless_drop};
ghost use Rattle.txn_dialogue.specs.Slots.{SeenVacant, reading};
ghost use Rattle.txn_dialogue.specs.Dialogue.{dialogue};
ghost use Rattle.txn_dialogue.specs.Memory.{short};
ghost use Rattle.txn_dialogue.specs.Events.{fired};
ghost use Rattle.txn_dialogue.specs.Examples.{Lives, Waits, IsVacant, told, begun, caller, callee, example_proxy, invite, then_comes, then_responds, relays_to, makes_nothing, sent_and_noted, two_sent, three_sent, ringing, forked, asleep, on_slot, story, short_story, first_failed, first_does, others, texts_to, relay_to, two_more, with_blocks, with_due, unsent_due, timer_in};

/// An INVITE is relayed to its one target: 100 goes back, and the INVITE on; timer A is due next. Where it comes again, 100 goes back again.
pub fn a_request_is_relayed()
    ensures relayed { told ringing
        ≡ (ask.Send caller (codes "SIP/2.0 100 Trying") ∷ ask.Send callee (codes "INVITE sip:b@192.0.2.9 SIP/2.0") ∷ ask.Due (Some 500) ∷ [], Lives, Some Handled) }
    ensures again { told (then_comes (example_proxy []) ringing Copy 100 sent_and_noted)
        ≡ (ask.Send caller (codes "SIP/2.0 100 Trying") ∷ ask.Due (Some 500) ∷ [], Lives, Some Handled) }
{}

/// Its busy response is acknowledged first, and then passed on; where the INVITE comes again the response is repeated, and where the
/// response comes again it is acknowledged alone.
pub fn a_busy_response_is_acknowledged_first()
    ensures busy { told (then_responds (example_proxy []) ringing 0 (codes "0") (codes "SIP/2.0 486 Busy Here") 200 two_sent)
        ≡ (ask.Send callee (codes "ACK sip:b@192.0.2.9 SIP/2.0") ∷ ask.Send caller (codes "SIP/2.0 486 Busy Here") ∷ ask.Due (Some 700) ∷ [], Lives, Some Handled) }
    ensures again { told (then_comes (example_proxy []) (then_responds (example_proxy []) ringing 0 (codes "0") (codes "SIP/2.0 486 Busy Here") 200 two_sent) Copy 300 sent_and_noted)
        ≡ (ask.Send caller (codes "SIP/2.0 486 Busy Here") ∷ ask.Due (Some 700) ∷ [], Lives, Some Handled) }
    ensures busy_again { told (then_responds (example_proxy []) (then_responds (example_proxy []) ringing 0 (codes "0") (codes "SIP/2.0 486 Busy Here") 200 two_sent) 0 (codes "0") (codes "SIP/2.0 486 Busy Here") 300 sent_and_noted)
        ≡ (ask.Send callee (codes "ACK sip:b@192.0.2.9 SIP/2.0") ∷ ask.Due (Some 700) ∷ [], Lives, Some Handled) }
{}

/// A 2xx goes on at once; where the INVITE comes again nothing is sent.
pub fn a_success_is_not_repeated()
    ensures ok { told (then_responds (example_proxy []) ringing 0 (codes "0") (codes "SIP/2.0 200 OK") 200 sent_and_noted)
        ≡ (ask.Send caller (codes "SIP/2.0 200 OK") ∷ ask.Due (Some 32200) ∷ [], Lives, Some Handled) }
    ensures again { told (then_comes (example_proxy []) (then_responds (example_proxy []) ringing 0 (codes "0") (codes "SIP/2.0 200 OK") 200 sent_and_noted) Copy 300 (heard.Noted ∷ []))
        ≡ (ask.Due (Some 32200) ∷ [], Lives, Some Handled) }
{}

/// A lone 503 is sent as 500.
pub fn a_lone_503_is_sent_as_500()
    ensures { told (then_responds (example_proxy []) ringing 0 (codes "0") (codes "SIP/2.0 503 Service Unavailable") 200 two_sent)
        ≡ (ask.Send callee (codes "ACK sip:b@192.0.2.9 SIP/2.0") ∷ ask.Send caller (codes "SIP/2.0 500 Server Internal Error") ∷ ask.Due (Some 700) ∷ [], Lives, Some Handled) }
{}

/// A provisional response, then a CANCEL, which goes out at once, then the 487 of the callee: the proxy's own goes back.
pub fn a_cancelled_call_ends_with_487()
    ensures provisional { told (then_responds (example_proxy []) ringing 0 (codes "0") (codes "SIP/2.0 180 Ringing") 100 sent_and_noted)
        ≡ (ask.Send caller (codes "SIP/2.0 180 Ringing") ∷ ask.Due (Some 120100) ∷ [], Lives, Some Handled) }
    ensures cancel { told (then_comes (example_proxy []) (then_responds (example_proxy []) ringing 0 (codes "0") (codes "SIP/2.0 180 Ringing") 100 sent_and_noted) Cancel 200 sent_and_noted)
        ≡ (ask.Send callee (codes "CANCEL sip:b@192.0.2.9 SIP/2.0") ∷ ask.Due (Some 700) ∷ [], Lives, Some Handled) }
    ensures end { told (then_responds (example_proxy []) (then_comes (example_proxy []) (then_responds (example_proxy []) ringing 0 (codes "0") (codes "SIP/2.0 180 Ringing") 100 sent_and_noted) Cancel 200 sent_and_noted) 0 (codes "0") (codes "SIP/2.0 487 Gone") 300 two_sent)
        ≡ (ask.Send callee (codes "ACK sip:b@192.0.2.9 SIP/2.0") ∷ ask.Send caller (codes "SIP/2.0 487 Request Terminated") ∷ ask.Due (Some 700) ∷ [], Lives, Some Handled) }
{}

/// A CANCEL before any response waits for a provisional one, which is passed on first.
pub fn a_cancel_waits_for_a_provisional_response()
    ensures cancel { told (then_comes (example_proxy []) ringing Cancel 50 (heard.Noted ∷ []))
        ≡ (ask.Due (Some 500) ∷ [], Lives, Some Handled) }
    ensures provisional { told (then_responds (example_proxy []) (then_comes (example_proxy []) ringing Cancel 50 (heard.Noted ∷ [])) 0 (codes "0") (codes "SIP/2.0 180 Ringing") 100 two_sent)
        ≡ (ask.Send caller (codes "SIP/2.0 180 Ringing") ∷ ask.Send callee (codes "CANCEL sip:b@192.0.2.9 SIP/2.0") ∷ ask.Due (Some 600) ∷ [], Lives, Some Handled) }
{}

/// `fr` without a provisional response ends the client; with one the branch is cancelled first. Both count as 408.
pub fn the_final_timer_counts_as_408()
    ensures without { told (on_slot ringing 30000 (fired (example_proxy []) (Some (Branch 0 Final))) sent_and_noted)
        ≡ (ask.Send caller (codes "SIP/2.0 408 Request Timeout") ∷ ask.Due (Some 30500) ∷ [], Lives, Some Handled) }
    ensures with_one { told (on_slot (then_responds (example_proxy []) ringing 0 (codes "0") (codes "SIP/2.0 180 Ringing") 100 sent_and_noted) 120100 (fired (example_proxy []) (Some (Branch 0 Final))) two_sent)
        ≡ (ask.Send callee (codes "CANCEL sip:b@192.0.2.9 SIP/2.0") ∷ ask.Send caller (codes "SIP/2.0 408 Request Timeout") ∷ ask.Due (Some 120600) ∷ [], Lives, Some Handled) }
{}

/// A suspended request that is timed out, cancelled, or continued by a route that decides nothing.
pub fn a_suspension_ends()
    ensures begins { told asleep
        ≡ (ask.Send caller (codes "SIP/2.0 100 Trying") ∷ ask.Due (Some 30000) ∷ [], Waits 1, Some Handled) }
    ensures timed_out { told (then_comes (example_proxy ([] ∷ [])) asleep Timer 30000 (heard.Claim (Won 0) ∷ sent_and_noted))
        ≡ (ask.Claim 0 1 TimedOut ∷ ask.Send caller (codes "SIP/2.0 408 Request Timeout") ∷ ask.Due (Some 30500) ∷ [], Lives, Some Handled) }
    ensures came_second { told (then_comes (example_proxy ([] ∷ [])) asleep Timer 30000 (heard.Claim (Lost Continued) ∷ heard.Noted ∷ []))
        ≡ (ask.Claim 0 1 TimedOut ∷ ask.Due None ∷ [], Waits 1, Some Handled) }
    ensures cancelled { told (then_comes (example_proxy ([] ∷ [])) asleep Cancel 50 (heard.Claim (Won 0) ∷ sent_and_noted))
        ≡ (ask.Claim 0 1 Cancelled ∷ ask.Send caller (codes "SIP/2.0 487 Request Terminated") ∷ ask.Due (Some 550) ∷ [], Lives, Some Handled) }
    ensures owed { told (then_comes (example_proxy ([] ∷ [])) asleep Cancel 50 (heard.Claim (Lost Continued) ∷ heard.Noted ∷ []))
        ≡ (ask.Claim 0 1 Cancelled ∷ ask.Due (Some 30000) ∷ [], Waits 1, Some Handled) }
    ensures continued { told (then_comes (example_proxy ([] ∷ [])) asleep (Continue 1 0) 60 sent_and_noted)
        ≡ (ask.Send caller (codes "SIP/2.0 500 Server Internal Error") ∷ ask.Due (Some 560) ∷ [], Lives, Some Handled) }
    ensures continued_after_cancel { told (then_comes (example_proxy ([] ∷ [])) (then_comes (example_proxy ([] ∷ [])) asleep Cancel 50 (heard.Claim (Lost Continued) ∷ heard.Noted ∷ [])) (Continue 1 0) 60 sent_and_noted)
        ≡ (ask.Send caller (codes "SIP/2.0 487 Request Terminated") ∷ ask.Due (Some 560) ∷ [], Lives, Some Handled) }
{}

/// A run with a transaction and without an outcome is answered 500; one without a transaction leaves the slot vacant.
pub fn a_silent_run()
    ensures transaction { told (begun (example_proxy []) makes_nothing invite sent_and_noted)
        ≡ (ask.Send caller (codes "SIP/2.0 500 Server Internal Error") ∷ ask.Due (Some 500) ∷ [], Lives, Some Handled) }
    ensures none { told (story (SeenVacant 0) (dialogue (example_proxy ([] ∷ [])) (SeenVacant 0) 0 (Request invite caller) 0)
        (heard.Block true ∷ heard.Block true ∷ heard.Noted ∷ heard.Noted ∷ heard.Noted ∷ heard.Noted ∷ []))
        ≡ (ask.Block ∷ ask.Block ∷ ask.GiveBack ∷ ask.GiveBack ∷ ask.Due None ∷ ask.Free ∷ [], IsVacant 1, Some (Dropped ScriptSilent)) }
    ensures no_block { told (story (SeenVacant 0) (dialogue (example_proxy ([] ∷ [])) (SeenVacant 0) 0 (Request invite caller) 0)
        (heard.Block true ∷ heard.Block false ∷ heard.Sent ∷ heard.Noted ∷ heard.Noted ∷ heard.Noted ∷ []))
        ≡ (ask.Block ∷ ask.Block ∷ ask.Send caller (codes "SIP/2.0 503 Service Unavailable") ∷ ask.GiveBack ∷ ask.Due None ∷ ask.Free ∷ [], IsVacant 1, Some Handled) }
{}

/// Out of memory after a suspension was opened the request waits; out of memory on a live slot nothing is sent, and the next timer is above
/// now; a continuation that finds no memory leaves its request waiting.
pub fn out_of_memory()
    ensures continuation { told (short_story asleep.seen (dialogue (example_proxy ([] ∷ [])) asleep.seen 0 (Continue 1 0) 60) (heard.Noted ∷ []))
        ≡ (ask.Due (Some 30000) ∷ [], Waits 1, None) }
    ensures opened { told (on_slot ringing 700 (short (record { blocks = 2; label = Some 1 })) (heard.Noted ∷ heard.Noted ∷ heard.Noted ∷ []))
        ≡ (ask.GiveBack ∷ ask.GiveBack ∷ ask.Due (Some 30000) ∷ [], Waits 1, None) }
    ensures unopened { told (on_slot ringing 700 (short (record { blocks = 2; label = None })) (heard.Noted ∷ heard.Noted ∷ heard.Noted ∷ []))
        ≡ (ask.GiveBack ∷ ask.GiveBack ∷ ask.Due (Some 30000) ∷ [], Lives, None) }
{}

/// A first request that finds no memory is answered 500, and its slot is free again; one that waits by then goes on waiting.
pub fn a_first_request_without_memory()
    ensures run { told (short_story (SeenVacant 0) (dialogue (example_proxy ([] ∷ [])) (SeenVacant 0) 0 (Request invite caller) 0)
        (heard.Block true ∷ heard.Block true ∷ heard.Sent ∷ heard.Noted ∷ heard.Noted ∷ heard.Noted ∷ heard.Noted ∷ []))
        ≡ (ask.Block ∷ ask.Block ∷ ask.Send caller (codes "SIP/2.0 500 Out of Memory") ∷ ask.GiveBack ∷ ask.GiveBack ∷ ask.Due None ∷ ask.Free ∷ [], IsVacant 1, None) }
    ensures waits { told (story (SeenVacant 0) (first_does (example_proxy []) (short (record { blocks = 0; label = Some 1 })) (reading invite)) (heard.Noted ∷ []))
        ≡ (ask.Due (Some 30000) ∷ [], Waits 1, None) }
    ensures kept { told (story (SeenVacant 0) (first_does (example_proxy []) (short (record { blocks = 0; label = None })) (reading invite))
        (heard.Sent ∷ heard.Noted ∷ heard.Noted ∷ heard.Noted ∷ heard.Noted ∷ []))
        ≡ (ask.Send caller (codes "SIP/2.0 500 Out of Memory") ∷ ask.GiveBack ∷ ask.GiveBack ∷ ask.Due None ∷ ask.Free ∷ [], IsVacant 1, None) }
{}

/// Of 404, 401 and 503 on three branches nothing goes back at first, and then the 401; where the last is a 407, its challenge stands in
/// the 401.
pub fn the_best_of_three_responses()
    ensures first { told (then_responds (example_proxy []) forked 0 (codes "0") (codes "SIP/2.0 404 Not Found") 10 sent_and_noted)
        ≡ (ask.Send callee (codes "ACK sip:b@192.0.2.9 SIP/2.0") ∷ ask.Due (Some 500) ∷ [], Lives, Some Handled) }
    ensures second { told (then_responds (example_proxy []) (then_responds (example_proxy []) forked
        0 (codes "0") (codes "SIP/2.0 404 Not Found") 10 sent_and_noted) 1 (codes "1") (codes "SIP/2.0 401 Unauthorized") 20 sent_and_noted)
        ≡ (ask.Send (others 1) (codes "ACK sip:c@192.0.2.10 SIP/2.0") ∷ ask.Due (Some 500) ∷ [], Lives, Some Handled) }
    ensures chosen { told (then_responds (example_proxy []) (then_responds (example_proxy []) (then_responds (example_proxy []) forked
        0 (codes "0") (codes "SIP/2.0 404 Not Found") 10 sent_and_noted) 1 (codes "1") (codes "SIP/2.0 401 Unauthorized") 20 sent_and_noted)
        2 (codes "2") (codes "SIP/2.0 503 Service Unavailable") 30 two_sent)
        ≡ (ask.Send (others 2) (codes "ACK sip:d@192.0.2.11 SIP/2.0") ∷ ask.Send caller (codes "SIP/2.0 401 Unauthorized") ∷ ask.Due (Some 530) ∷ [], Lives, Some Handled) }
    ensures joined { texts_to caller (then_responds (example_proxy []) (then_responds (example_proxy []) (then_responds (example_proxy []) forked
        0 (codes "0") (codes "SIP/2.0 404 Not Found") 10 sent_and_noted) 1 (codes "1") (codes "SIP/2.0 401 Unauthorized") 20 sent_and_noted)
        2 (codes "2") (codes "SIP/2.0 407 Proxy Authentication Required\r\nProxy-Authenticate: Digest realm=\"y\"") 30 two_sent).asks
        ≡ codes "SIP/2.0 401 Unauthorized\r\nVia: SIP/2.0/UDP 192.0.2.1;branch=z9hG4bK6\r\nFrom: <sip:u@192.0.2.1>;tag=f\r\nTo: <sip:b@192.0.2.9>;tag=t\r\nCall-ID: 6\r\nCSeq: 1 INVITE\r\nContent-Length: 0\r\nProxy-Authenticate: Digest realm=\"y\"\r\n\r\n" ∷ [] }
{}

/// A 2xx goes on first, and then the other branches are cancelled that have a provisional response.
pub fn a_success_cancels_the_others()
    ensures { told (then_responds (example_proxy []) (then_responds (example_proxy []) forked
        1 (codes "1") (codes "SIP/2.0 180 Ringing") 10 sent_and_noted) 0 (codes "0") (codes "SIP/2.0 200 OK") 20 two_sent)
        ≡ (ask.Send caller (codes "SIP/2.0 200 OK") ∷ ask.Send (others 1) (codes "CANCEL sip:c@192.0.2.10 SIP/2.0") ∷ ask.Due (Some 500) ∷ [], Lives, Some Handled) }
{}

/// A branch block that ends by `drop` removes its target, whatever it was, and its blocks go back; a round without a branch counts as 503.
pub fn a_dropped_target_is_removed()
    ensures { (launch : Option Launch) → told (story (SeenVacant 0) (first_does (example_proxy [])
        (λ w. all_launched (over (example_proxy []) 12) (launched (unless_drop Drop launch) (record w { blocks = 4; exists = true }))) (reading invite))
        (heard.Sent ∷ heard.Noted ∷ heard.Noted ∷ heard.Noted ∷ []))
        ≡ (ask.Send caller (codes "SIP/2.0 500 Server Internal Error") ∷ ask.GiveBack ∷ ask.GiveBack ∷ ask.Due (Some 500) ∷ [], Lives, Some Handled) }
{}

/// A failure block that decides nothing lets the best response go back; one that relays begins a second round, and where that fails too
/// its own best response goes back, whatever the first round had.
pub fn a_failure_block_runs()
    ensures silent { told (then_responds (example_proxy ([] ∷ [])) (begun (example_proxy ([] ∷ [])) (λ r s. relays_to [] r (with_blocks None (Some 0) s)) invite two_sent)
        0 (codes "0") (codes "SIP/2.0 486 Busy Here") 200 two_sent)
        ≡ (ask.Send callee (codes "ACK sip:b@192.0.2.9 SIP/2.0") ∷ ask.Send caller (codes "SIP/2.0 486 Busy Here") ∷ ask.Due (Some 700) ∷ [], Lives, Some Handled) }
    ensures relays { told (on_slot ringing 200 (λ w. after_failure_by (example_proxy []) (over (example_proxy []) 11) (made 486) (Relayed (relay_to (codes "sip:c@192.0.2.10"))) (first_failed w)) sent_and_noted)
        ≡ (ask.Send (others 1) (codes "INVITE sip:c@192.0.2.10 SIP/2.0") ∷ ask.Due (Some 700) ∷ [], Lives, Some Handled) }
    ensures fails_again { told (then_responds (example_proxy []) (on_slot ringing 200 (λ w. after_failure_by (example_proxy []) (over (example_proxy []) 11) (made 486) (Relayed (relay_to (codes "sip:c@192.0.2.10"))) (first_failed w)) sent_and_noted)
        1 (codes "1") (codes "SIP/2.0 488 Not Acceptable Here") 300 two_sent)
        ≡ (ask.Send (others 1) (codes "ACK sip:c@192.0.2.10 SIP/2.0") ∷ ask.Send caller (codes "SIP/2.0 488 Not Acceptable Here") ∷ ask.Due (Some 800) ∷ [], Lives, Some Handled) }
{}

/// A request that couldn't be sent is due at once, and counts as 503; the other branches go on.
pub fn an_unsent_request_counts_as_503()
    ensures due { told (begun (example_proxy []) (relays_to []) invite (heard.Sent ∷ heard.Failed ∷ heard.Noted ∷ []))
        ≡ (ask.Send caller (codes "SIP/2.0 100 Trying") ∷ ask.Send callee (codes "INVITE sip:b@192.0.2.9 SIP/2.0") ∷ ask.Due (Some 0) ∷ [], Lives, Some Handled) }
    ensures counted { told (then_comes (example_proxy []) (begun (example_proxy []) (relays_to []) invite (heard.Sent ∷ heard.Failed ∷ heard.Noted ∷ [])) Timer 0 sent_and_noted)
        ≡ (ask.Send caller (codes "SIP/2.0 500 Server Internal Error") ∷ ask.Due (Some 500) ∷ [], Lives, Some Handled) }
    ensures goes_on { told (then_comes (example_proxy []) (begun (example_proxy []) (relays_to two_more) invite (heard.Sent ∷ heard.Failed ∷ two_sent)) Timer 0 (heard.Noted ∷ []))
        ≡ (ask.Due (Some 500) ∷ [], Lives, Some Handled) }
{}

/// Of timers that are due at one moment S goes before the server's, and these before a branch's, whose X goes before its client's.
pub fn timers_that_tie()
    ensures suspension { timer_in 500 (with_due (Some 500) (Some 500)) ringing.seen ≡ Some Suspension }
    ensures server { timer_in 500 (with_due None (Some 500)) ringing.seen ≡ Some (Server server_timer.Retry) }
    ensures unsent { timer_in 500 (unsent_due (Some 500)) ringing.seen ≡ Some (Branch 0 Unsent) }
    ensures client { timer_in 500 (unsent_due (Some 501)) ringing.seen ≡ Some (Branch 0 (Client client_timer.Retry)) }
    ensures none { timer_in 499 (with_due None None) ringing.seen ≡ None }
{}
