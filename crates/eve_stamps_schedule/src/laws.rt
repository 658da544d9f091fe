//! Laws of every schedule. Each body is empty: the contract is the law.

ghost use Rattle.std.specs.Prelude.{◌≡◌, ℕ, true, false, [], ◌∷◌, IsTrue, IsPermutation};
ghost use Rattle.eve_stamps_schedule.specs.declared.event.Event.{Event};
ghost use Rattle.eve_stamps_schedule.specs.declared.event.Event.TheVariants.{Claim, LockStripe, Tick};
ghost use Rattle.eve_stamps_schedule.specs.World.{Plan, World, first_world, records_at, records_below};
ghost use Rattle.eve_stamps_schedule.specs.Events.{is_allowed_event, happens, are_allowed};
ghost use Rattle.eve_stamps_schedule.specs.Serial.{IsReachedWorld, IsSerialWorld, AreNotedBy, order_of, is_done};
ghost use Rattle.eve_stamps_schedule.specs.Serial.{IsComplete};
ghost use Rattle.eve_stamps_schedule.specs.inner.Worked.{same_stripe, two_groups, two_stripes, no_stripe};
ghost use Rattle.eve_stamps_schedule.specs.inner.Worked.{up_to_the_lock};
ghost use Rattle.eve_stamps_schedule.specs.inner.Worked.{the_rest_of, one_after_the_other, applied_out_of_order};
ghost use Rattle.eve_stamps_schedule.specs.inner.Worked.{world_of_events};

/// If each event was allowed where it came, the applied records are serial in the order of their ticks, also where
/// requests on different stripes were applied in another order.
///
/// docs/DEPLOYMENT.md, "Schedule". That a schedule is ever done isn't promised.
pub fn every_schedule_is_serial()
    ensures serial { (p : Plan) (w : World) → IsReachedWorld p w → IsSerialWorld p w }
    // The records that the workers noted or are about to note are the applied ones.
    ensures gathered { (p : Plan) (w : World) → IsReachedWorld p w
        → IsPermutation (records_below w p.workers) w.applied }
    // Those of each worker are its own and have the places 0, 1, 2, ..
    ensures listed { (p : Plan) (w : World) → IsReachedWorld p w → (v : ℕ) → AreNotedBy v 0 (records_at w v) }
    ensures complete { (p : Plan) (w : World) → IsReachedWorld p w → IsTrue (is_done p w) → IsComplete p w }
{}

/// The world at first is reached, and from a reached world each event that is allowed leads to another.
///
/// docs/DEPLOYMENT.md, "Schedule".
pub fn worlds_are_reached_event_by_event()
    ensures first { (p : Plan) → IsReachedWorld p (first_world p) }
    ensures next { (p : Plan) (w : World) (event : Event) → IsReachedWorld p w → IsTrue (is_allowed_event p w event)
        → IsReachedWorld p (happens p w event) }
{}

/// Two workers whose requests need the same stripe, computed from the definitions.
///
/// docs/DEPLOYMENT.md, "Schedule".
pub fn workers_wait_for_a_stripe()
    // While worker 1 owns the stripe, worker 0 can neither lock it nor get a tick, nor claim another request.
    ensures locked { is_allowed_event same_stripe (world_of_events same_stripe up_to_the_lock) (LockStripe 0) ≡ false }
    ensures unticked { is_allowed_event same_stripe (world_of_events same_stripe up_to_the_lock) (Tick 0) ≡ false }
    ensures busy { is_allowed_event same_stripe (world_of_events same_stripe up_to_the_lock) (Claim 0) ≡ false }

    // Then worker 1 goes first.
    ensures allowed { IsTrue (are_allowed same_stripe (first_world same_stripe) one_after_the_other) }
    ensures done { IsTrue (is_done same_stripe (world_of_events same_stripe one_after_the_other)) }
    ensures order { order_of (world_of_events same_stripe one_after_the_other) ≡ 1 ∷ 0 ∷ [] }
{}

/// Requests that need different stripes may be applied in another order than that of their ticks, which is the
/// order that counts.
///
/// docs/DEPLOYMENT.md, "Schedule".
pub fn ticks_order_what_is_applied()
    ensures allowed { IsTrue (are_allowed two_stripes (first_world two_stripes) applied_out_of_order) }
    ensures order { order_of (world_of_events two_stripes applied_out_of_order) ≡ 0 ∷ 1 ∷ [] }
    ensures open { is_done two_stripes (world_of_events two_stripes applied_out_of_order) ≡ false }
{}

/// A request of a later parallelBatch waits until each of the current one is noted.
///
/// docs/DEPLOYMENT.md, "Schedule".
pub fn later_groups_wait()
    ensures waits { is_allowed_event two_groups (world_of_events two_groups (Claim 0 ∷ [])) (Claim 1) ≡ false }
    ensures follows { is_allowed_event two_groups (world_of_events two_groups (Claim 0 ∷ LockStripe 0 ∷ the_rest_of 0))
        (Claim 1)
        ≡ true }
{}

/// A request that touches no row needs no stripe, and a worker that isn't there may do nothing.
///
/// docs/DEPLOYMENT.md, "Schedule".
pub fn refused_requests_need_no_stripe()
    ensures ticks { is_allowed_event no_stripe (world_of_events no_stripe (Claim 0 ∷ [])) (Tick 0) ≡ true }
    ensures locks { is_allowed_event no_stripe (world_of_events no_stripe (Claim 0 ∷ [])) (LockStripe 0) ≡ false }
    ensures nobody { is_allowed_event no_stripe (first_world no_stripe) (Claim 2) ≡ false }
{}
