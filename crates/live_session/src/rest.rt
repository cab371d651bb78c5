//! What is asked when all batches are in.
ghost use Rattle.std.specs.Prelude.{◌≡◌, ◌≤◌, [], length, IfOk};
ghost use Rattle.std.specs.List.{All};
ghost use Rattle.versions.specs.Course.{course_of, total_of};
ghost use Rattle.live_session.specs.Asked.{AreWhole, Fits, IsRow, IsWhole};
ghost use Rattle.live_session.specs.Askers.{AreNumbered, AsksIn, IsSeat, Stands};

use crate::asker::{Asker, Seat, ask, query_at};
use crate::asking::Asking;
use crate::last_graph::LastGraph;
use crate::row::AnswerRow;
use ann_shelf::{Gate, NoMemory};
use versions::{BatchNote, Caller, Publisher};

// Answers the queries that a row has no answer to, in the last graph. `gate.answer` is called after each.
fn finish<G: Gate>(
    row: &mut AnswerRow,
    seat: &mut Seat,
    asking: &Asking<'_>,
    graph: &LastGraph<'_>,
    gate: &G,
)
    requires fits { Fits (course_of graph.now.plan.now) asking.now }
    requires seat { IsSeat (course_of graph.now.plan.now) asking.now seat.old }
    requires row { IsRow (course_of graph.now.plan.now) asking.now seat.old.first 1 graph.now.batch row.old }
    requires some { 1 ≤ graph.now.batch }
    ensures row { IsWhole (course_of graph.now.plan.now) asking.now seat.old.first 1 graph.now.batch row.new }
    ensures seat { IsSeat (course_of graph.now.plan.now) asking.now seat.new }
    ensures first { seat.new.first ≡ seat.old.first }
{
    for place in row.len()..row.size() {
        let Some(query) = query_at(asking, seat.first, place) else {
            return;
        };
        graph.answer(asking, query, &mut seat.scratch, row);
        gate.answer(query);
    }
}

// Asks all queries of a caller in the last graph, of which it was told. Where an entry is refused the graph is searched
// without it.
fn ask_all_last(
    caller: &mut Caller<'_>,
    row: &mut AnswerRow,
    seat: &mut Seat,
    asking: &Asking<'_>,
    graph: &LastGraph<'_>,
)
    requires last { graph.now.batch ≡ total_of (course_of graph.now.plan.now) }
    requires fits { Fits (course_of graph.now.plan.now) asking.now }
    requires asks { AsksIn (course_of graph.now.plan.now) asking.now graph.now.batch caller.old seat.old row.old }
    ensures row { IsWhole (course_of graph.now.plan.now) asking.now seat.old.first graph.now.batch graph.now.batch row.new }
{
    for place in row.len()..row.size() {
        let Some(query) = query_at(asking, seat.first, place) else {
            return;
        };
        let Some(batch) = ask(caller, seat, asking, query) else {
            graph.answer(asking, query, &mut seat.scratch, row);
            continue;
        };
        row.push(batch, seat.out.pairs());
    }
}

/// The rows of a caller: that of its answers beside the build, where the last graph answers what is left, and that of its
/// answers in the last graph, of which it is told before.
pub(crate) fn settle<'p, G: Gate>(
    asker: Asker<'p>,
    note: BatchNote<'p>,
    asking: &Asking<'_>,
    graph: &LastGraph<'_>,
    gate: &G,
) -> (AnswerRow, AnswerRow)
    requires fits { Fits (course_of graph.now.plan.now) asking.now }
    requires stands { Stands (course_of graph.now.plan.now) asking.now asker }
    requires note { (note.course ≡ course_of graph.now.plan.now) × (note.batch ≡ graph.now.batch) }
    requires last { graph.now.batch ≡ total_of (course_of graph.now.plan.now) }
    ensures live { IsWhole (course_of graph.now.plan.now) asking.now asker.entry.seat.first 1 graph.now.batch result.0 }
    ensures last { IsWhole (course_of graph.now.plan.now) asking.now asker.entry.seat.first graph.now.batch graph.now.batch result.1 }
{
    let Asker {
        mut caller,
        mut seat,
        mut live,
        mut last,
    } = asker;
    finish(&mut live, &mut seat, asking, graph, gate);
    caller.told(note);
    ask_all_last(&mut caller, &mut last, &mut seat, asking, graph);
    (live, last)
}

/// The rows of all callers, in the order of their numbers: the rows of the answers beside the build, and of those in the
/// last graph. They are put into lists that are empty.
pub(crate) fn settle_all<'p, G: Gate>(
    mut askers: Vec<Asker<'p>>,
    publisher: &mut Publisher<'p>,
    asking: &Asking<'_>,
    graph: &LastGraph<'_>,
    gate: &G,
    mut live: Vec<AnswerRow>,
    mut last: Vec<AnswerRow>,
) -> Result<(Vec<AnswerRow>, Vec<AnswerRow>), NoMemory>
    requires fits { Fits (course_of graph.now.plan.now) asking.now }
    requires stand { All (Stands (course_of graph.now.plan.now) asking.now) askers.items }
    requires order { AreNumbered asking.now.callers askers.items }
    requires count { length askers.items ≡ asking.now.callers }
    requires published { (publisher.old.course ≡ course_of graph.now.plan.now) × (publisher.old.batch ≡ graph.now.batch) }
    requires total { graph.now.batch ≡ total_of (course_of graph.now.plan.now) }
    requires live { live.items ≡ [] }
    requires last { last.items ≡ [] }
    ensures live { IfOk result (λ t. AreWhole (course_of graph.now.plan.now) asking.now 1 graph.now.batch t.0.items) }
    ensures last { IfOk result (λ t. AreWhole (course_of graph.now.plan.now) asking.now graph.now.batch graph.now.batch t.1.items) }
    ensures counts { IfOk result (λ t. (length t.0.items ≡ asking.now.callers) × (length t.1.items ≡ asking.now.callers)) }
    ensures publisher { publisher.new ≡ publisher.old }
{
    for _ in 0..asking.callers {
        let Some(asker) = askers.pop() else {
            unreachable!()
        };
        let (beside, after) = settle(asker, publisher.note(), asking, graph, gate);
        live.push(beside)?;
        last.push(after)?;
    }
    Ok((live, last))
}
