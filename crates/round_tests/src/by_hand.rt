//! Stolen rounds by hand and by their report.
ghost use Rattle.std.specs.Prelude.{◌≡◌, None, Some};
ghost use Rattle.steal_table.specs.Opened.{fresh, caller_of};
ghost use Rattle.steal_table.specs.Steps.{AllBack};

use crate::squares::{are_squares, steal};
use ann_shelf::FreeGate;
use std::test::Fail;
use steal_pool::{Board, Claim, Pass, Round};

// The board of a round of one task for two workers, with the passes of the caller and of both workers.
fn opened(round: Round) -> (Board, Pass, Pass, Pass)
    requires { round ≡ record { tasks = 1; width = 1; workers = 2 } }
    ensures size { result.0.size ≡ record { tasks = 1; width = 1; workers = 2 } }
    ensures own { result.1 ≡ caller_of result.0 2 }
    ensures zero { result.2 ≡ fresh result.0 0 }
    ensures one { result.3 ≡ fresh result.0 1 }
{
    let (board, own, mut passes) = round.open();
    let Some(one) = passes.pop() else {
        unreachable!()
    };
    let Some(zero) = passes.pop() else {
        unreachable!()
    };
    (board, own, zero, one)
}

// Writes 7 to the block of the task that the pass holds, and finishes the task.
fn finish_with_seven(board: &Board, pass: &mut Pass)
    requires board { pass.old.board ≡ board.now }
    requires holds { pass.old.view.held ≡ Some 0 }
    requires width { board.now.size.width ≡ 1 }
    ensures board { pass.new.board ≡ board.now }
    ensures free { pass.new.view.held ≡ None }
    ensures number { pass.new.view.number ≡ pass.old.view.number }
{
    pass.block()[0] = 7;
    board.finish(pass);
}

// Joins the passes of both workers.
fn join_both(board: &Board, own: &mut Pass, zero: Pass, one: Pass)
    requires size { board.now.size ≡ record { tasks = 1; width = 1; workers = 2 } }
    requires own { own.old ≡ caller_of board.now 2 }
    requires zero { (zero.board ≡ board.now) × (zero.view.held ≡ None) × (zero.view.number ≡ 0) }
    requires one { (one.board ≡ board.now) × (one.view.held ≡ None) × (one.view.number ≡ 1) }
    ensures board { own.new.board ≡ board.now }
    ensures free { own.new.view.held ≡ None }
    ensures back { AllBack own.new.view }
{
    board.join(own, zero);
    board.join(own, one);
}

#[test]
fn one_task_goes_by_hand_from_open_to_held_to_done(rt: HostRuntime) -> Result<(), Fail> {
    let (board, mut own, mut zero, mut one) = opened(Round::new(rt.alloc(), 1, 1, 2)?);
    let Claim::Mine = board.claim(&mut zero, 0) else {
        panic!(rt; "the task was open")
    };
    let Claim::Held { by } = board.claim(&mut one, 0) else {
        panic!(rt; "the task was held")
    };
    assert!(rt; by == 0);
    finish_with_seven(&board, &mut zero);
    let Claim::Done { by } = board.claim(&mut one, 0) else {
        panic!(rt; "the task was done")
    };
    assert!(rt; by == 0);
    join_both(&board, &mut own, zero, one);
    let Some(by) = board.look(&mut own, 0) else {
        panic!(rt; "the caller has its entry")
    };
    assert!(rt; by == 0);
    let (blocks, report) = board.close(own);
    assert!(rt; blocks.get(0) == [7].as_slice());
    assert!(rt; report.owner(0) == 0 && report.ran(0) == 1);
    assert!(rt; report.ran(1) == 0 && report.swept() == 0);
    Ok(())
}

#[test]
fn report_of_three_workers_adds_up(rt: HostRuntime) -> Result<(), Fail> {
    let (blocks, report, _runs) = steal(&rt, rt.alloc(), 3, 5, &FreeGate)?;
    assert!(rt; are_squares(&blocks, 5));
    let ran = u64::from(report.ran(0)) + u64::from(report.ran(1)) + u64::from(report.ran(2));
    assert!(rt; ran + u64::from(report.swept()) == 5);
    Ok(())
}

#[test]
fn one_worker_leaves_nothing_to_the_sweep(rt: HostRuntime) -> Result<(), Fail> {
    let (_blocks, report, _runs) = steal(&rt, rt.alloc(), 1, 64, &FreeGate)?;
    assert!(rt; report.ran(0) == 64);
    assert!(rt; report.swept() == 0);
    Ok(())
}
