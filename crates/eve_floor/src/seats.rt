//! The seats that workers have at shared batches.

ghost use Rattle.std.specs.Prelude.{◌≡◌, ◌≤◌, All, IfSome, OnOk, vec_len};
ghost use Rattle.eve_floor.specs.SharedBatches.{AreFreeAt, AreFreeOf, AreFreshAt, AreFreshOf, AreOwnAt, AreSeatedAt};
ghost use Rattle.eve_floor.specs.SharedBatches.{IsMemberOf, IsPartAt};

use crate::Floor;
use crate::shared::{FreeSeats, SharedBatch};
use crate::work::Crew;
use crate::workers::Member;
use eve_grammar::MOST_WORKERS;
use eve_recorder::{TicketSeat, WorkerSeat};
use std::alloc::AllocError;

/// A worker's own seats at a shared batch: the one at the recorder, and the one at the tickets by which requests are
/// claimed.
#[derive(Drop)]
pub(crate) struct OwnSeats {
    pub noter: WorkerSeat,
    pub claims: TicketSeat,
}

/// Gives each worker its seats at each batch in which it has a part.
pub(crate) fn seat_all<G>(
    crew: &Crew<'_, G>,
    free: &mut Vec<FreeSeats>,
    members: &mut Vec<Member>,
) -> Result<(), AllocError>
    requires free { AreFreshOf crew.now free.old.items }
    requires ticks { AreSeatedAt crew.now.ticks.now members.old.items }
    requires few { vec_len members.old ≤ MOST_WORKERS }
    ensures free { OnOk result (AreFreeOf crew.now free.new.items) }
    ensures members { OnOk result (All (IsMemberOf crew.now) members.new.items) }
    ensures ticks { AreSeatedAt crew.now.ticks.now members.new.items }
    ensures many { vec_len members.new ≡ vec_len members.old }
{
    for number in 0..members.len() {
        seat(crew, free, number as u8, &mut members[number])?;
    }
    Ok(())
}

/// Gives the worker with this number its seats at each batch in which it has a part.
fn seat<G>(
    crew: &Crew<'_, G>,
    free: &mut Vec<FreeSeats>,
    number: u8,
    member: &mut Member,
) -> Result<(), AllocError>
    requires free { AreFreshOf crew.now free.old.items }
    requires tick { member.old.tick.tickets ≡ crew.now.ticks.now }
    ensures free { AreFreshOf crew.now free.new.items }
    ensures member { OnOk result (IsMemberOf crew.now member.new) }
    ensures tick { member.new.tick ≡ member.old.tick }
{
    let batches = crew.batches;
    member.fault = None;
    member.parts.clear();
    member.parts.reserve(batches.len())?;
    for at in 0..batches.len() {
        let part = own_seats(crew.floor, &batches[at], &mut free[at], number);
        member.parts.push_reserved(part);
    }
    Ok(())
}

/// The seats of the worker with this number at a batch; `None` where it has no part in it.
fn own_seats(
    floor: &Floor,
    shared: &SharedBatch<'_>,
    free: &mut FreeSeats,
    number: u8,
) -> Option<OwnSeats>
    requires free { AreFreshAt floor.now shared.now free.old }
    ensures free { AreFreshAt floor.now shared.now free.new }
    ensures own { IfSome result (AreOwnAt floor.now shared.now) }
{
    let claims = free.claims.seat(number)?;
    let Some(noter) = free.noters.worker(number) else {
        unreachable!()
    };
    Some(OwnSeats { noter, claims })
}

/// Takes the workers' seats at the recorders back.
pub(crate) fn give_back_all<G>(
    crew: &Crew<'_, G>,
    free: &mut Vec<FreeSeats>,
    members: &mut Vec<Member>,
)
    requires free { AreFreeOf crew.now free.old.items }
    requires members { All (IsMemberOf crew.now) members.old.items }
    ensures free { AreFreeOf crew.now free.new.items }
    ensures ticks { AreSeatedAt crew.now.ticks.now members.new.items }
    ensures many { vec_len members.new ≡ vec_len members.old }
{
    for number in 0..members.len() {
        give_back(crew, free, &mut members[number]);
    }
}

/// Takes the worker's seats at the recorders back.
fn give_back<G>(crew: &Crew<'_, G>, free: &mut Vec<FreeSeats>, member: &mut Member)
    requires free { AreFreeOf crew.now free.old.items }
    requires member { IsMemberOf crew.now member.old }
    ensures free { AreFreeOf crew.now free.new.items }
    ensures tick { member.new.tick ≡ member.old.tick }
{
    let batches = crew.batches;
    for at in 0..batches.len() {
        let part = member.parts.remove(0);
        take_back(crew.floor, &batches[at], &mut free[at], part);
    }
}

/// Takes a worker's seat at the recorder of a batch back.
fn take_back(floor: &Floor, shared: &SharedBatch<'_>, free: &mut FreeSeats, part: Option<OwnSeats>)
    requires free { AreFreeAt floor.now shared.now free.old }
    requires part { IsPartAt floor.now shared.now part }
    ensures free { AreFreeAt floor.now shared.now free.new }
{
    if let Some(own) = part {
        free.noters.give_back(own.noter);
    }
}
