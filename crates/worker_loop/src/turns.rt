//! A worker's claims, each in a turn of its pass.
use beam_ports::{Gate, GatePoint};
use bundle_work::Claims;
use std::sync::Wait;
use worker_table::{Table, WorkerPass};

/// Claims in turns of a pass, which has this slot. Before each one the gate is passed.
#[derive(Drop)]
pub struct Turns<'a, R: Wait, G: Gate> {
    pub rt: &'a R,
    pub table: &'a Table,
    pub gate: &'a G,
    pub slot: u32,
}

impl<'a, R: Wait, G: Gate> Claims for Turns<'a, R, G> {
    type Pass = WorkerPass;

    ghost use Rattle.std.specs.Prelude.{IsSome};
    ghost use Rattle.worker_table.specs.Passes.{IsOf, job_known, note_of_pass, setting_of};
    ghost use Rattle.worker_table.specs.Passes.{slot_of};
    ghost use Rattle.worker_loop.specs.Laws.{OnlyClaims};
    ghost use Rattle.worker_loop.specs.Laws.{claims_onward, claims_same};

    ghost is_of = { λ turns pass. IsOf turns.table.now pass × IsSome (slot_of pass) };

    ghost known = { λ turns pass. job_known pass };

    ghost stays = { λ turns first last. OnlyClaims (setting_of turns.table.now)
        (note_of_pass first) (note_of_pass last) };

    ghost stays_same = { λ turns pass. claims_same (setting_of turns.table.now)
        (note_of_pass pass) };

    ghost stays_on = { λ turns first next last. claims_onward (setting_of turns.table.now)
        (note_of_pass first) (note_of_pass next) (note_of_pass last) };

    fn claim_end(&self, pass: &mut WorkerPass, p: u64) -> u64 {
        self.gate.pass(self.slot, GatePoint::Claim);
        self.table.claim_end(self.rt, pass, p)
    }
}
