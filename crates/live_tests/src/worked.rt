//! A caller of the line of four points, whose answers are worked out by hand.
ghost use Rattle.std.specs.Prelude.{◌≡◌, ◌≤◌, IfSome};
ghost use Rattle.ann_defs.specs.Distance.{dim_of};

use crate::answers::{is_answered, is_refused_then, is_told, never_goes_back};
use crate::line::{line, near, plain};
use crate::seat::Seat;
use crate::stepping::{opened, publish_next};
use ann_shelf::NoMemory;
use std::alloc::Global;
use std::marker::Model;
use std::process::Abort;
use std::sync::Wait;
use std::thread::Threads;
use vamana_build::{Plan, Vamana};
use versions::{BatchNote, Publisher};

// A build whose batches are published, and its only caller, which asks with beam 4 for one id.
struct OneCaller<'p> {
    plan: &'p Plan<'p>,
    build: Vamana<'p>,
    publisher: Publisher<'p>,
    seat: Seat<'p>,
}

impl<'p> Model for OneCaller<'p> {
    ghost use Rattle.versions.specs.Course.{Course, course_of};
    ghost use Rattle.live_tests.specs.Seated.{IsSeated};

    ghost Value = { Course };

    ghost view = { λ x. course_of x.plan.now };

    ghost invariant = { λ x. IsSeated (course_of x.plan.now) x.build x.publisher x.seat };
}

// What is published of the line, and what the caller is told of it.
#[derive(Clone, Copy)]
enum Telling {
    Nothing,
    OfTheLast,
    OfNone,
    OfTheSecondPass,
}

impl<'p> OneCaller<'p> {
    fn new<R: Threads + Wait + Sync + Abort>(
        rt: &R,
        alloc: Global,
        plan: &'p Plan<'p>,
    ) -> Result<OneCaller<'p>, NoMemory>
        requires { dim_of plan.now.points.now.vectors ≡ 1 }
    {
        let (build, publisher, mut callers) = opened(rt, alloc, plan, 1)?;
        let caller = callers.pop().expect(rt, "a caller");
        let seat = Seat::new(alloc, plan, caller, 4, 1).expect(rt, "memory");
        Ok(OneCaller {
            plan,
            build,
            publisher,
            seat,
        })
    }

    // Publishes the next batch, and returns a note of it; None where all batches are in.
    fn publish<R: Threads + Wait + Sync + Abort>(
        &mut self,
        rt: &R,
        alloc: Global,
    ) -> Option<BatchNote<'p>>
        ensures same { self.new ≡ self.old }
        ensures note { IfSome result (λ n. n.course ≡ self.old) }
    {
        publish_next(rt, alloc, self.plan, &mut self.build, &mut self.publisher).expect(
            rt, "memory",
        )
    }

    // Publishes all batches that are left, of which there is one, and returns a note of the last.
    fn published_last<R: Threads + Wait + Sync + Abort>(
        &mut self,
        rt: &R,
        alloc: Global,
    ) -> BatchNote<'p>
        ensures same { self.new ≡ self.old }
        ensures note { result.course ≡ self.old }
    {
        let total = self.build.total();
        let mut last = self.publish(rt, alloc).expect(rt, "a batch");
        for _ in 2..total {
            last = self.publish(rt, alloc).expect(rt, "a batch");
        }
        last
    }

    // Whether the caller is told of the third batch of the line and answered in it, and no batch is left then.
    fn told_of_the_last<R: Threads + Wait + Sync + Abort>(
        &mut self,
        rt: &R,
        alloc: Global,
    ) -> bool {
        let first = is_answered(self.plan, &mut self.seat, 12, 1, near(144, 0));
        let second = self.publish(rt, alloc).expect(rt, "a batch");
        let third = self.publish(rt, alloc).expect(rt, "a batch");
        let told = is_told(self.plan, &mut self.seat, second, third);
        let after = self.publish(rt, alloc);
        first && told && after.is_none()
    }

    // Whether the caller, told of none of the batches 2 and 3 of the line, never goes back.
    fn told_of_none<R: Threads + Wait + Sync + Abort>(&mut self, rt: &R, alloc: Global) -> bool {
        let first = never_goes_back(self.plan, &mut self.seat, 1);
        let _second = self.publish(rt, alloc).expect(rt, "a batch");
        let then = never_goes_back(self.plan, &mut self.seat, 2);
        let _third = self.publish(rt, alloc).expect(rt, "a batch");
        let last = never_goes_back(self.plan, &mut self.seat, 3);
        first && then && last && (self.seat.answered(), self.seat.refused()) == (3, 0)
    }

    // Whether the caller is told of the sixth batch of the line, which has three in each of two passes, and answered in it.
    fn told_of_the_second_pass<R: Threads + Wait + Sync + Abort>(
        &mut self,
        rt: &R,
        alloc: Global,
    ) -> bool {
        let first = is_answered(self.plan, &mut self.seat, 12, 1, near(144, 0));
        let last = self.published_last(rt, alloc);
        let sixth = last.batch() == 6;
        self.seat.told(self.plan, last, 4, 1);
        let near_one = is_answered(self.plan, &mut self.seat, 12, 6, near(4, 1));
        let at_three = is_answered(self.plan, &mut self.seat, 30, 6, near(0, 3));
        first && sixth && near_one && at_three
    }

    // Whether the caller is told nothing and answered in the first batch.
    fn told_nothing(&mut self) -> bool {
        is_answered(self.plan, &mut self.seat, 12, 1, near(144, 0)) && self.seat.seen() == 1
    }

    // Whether the caller is answered so.
    fn is_told_so<R: Threads + Wait + Sync + Abort>(
        &mut self,
        rt: &R,
        alloc: Global,
        telling: Telling,
    ) -> bool {
        match telling {
            Telling::Nothing => self.told_nothing(),
            Telling::OfTheLast => self.told_of_the_last(rt, alloc),
            Telling::OfNone => self.told_of_none(rt, alloc),
            Telling::OfTheSecondPass => self.told_of_the_second_pass(rt, alloc),
        }
    }

    // Whether the caller is refused after the end.
    fn is_refused_at_the_end<R: Wait>(self, rt: &R) -> bool {
        let OneCaller {
            plan,
            build: _build,
            publisher,
            mut seat,
        } = self;
        publisher.end(rt);
        is_refused_then(plan, &mut seat)
    }
}

// Whether the only caller of a plan is answered so, and refused after the end.
fn goes_by<R: Threads + Wait + Sync + Abort>(
    rt: &R,
    alloc: Global,
    plan: &Plan<'_>,
    telling: Telling,
) -> Result<bool, NoMemory>
    requires dim { dim_of plan.now.points.now.vectors ≡ 1 }
{
    let mut caller = OneCaller::new(rt, alloc, plan)?;
    let told = caller.is_told_so(rt, alloc, telling);
    let refused = caller.is_refused_at_the_end(rt);
    Ok(told && refused)
}

// The same of the line in so many passes.
fn goes<R: Threads + Wait + Sync + Abort>(
    rt: &R,
    alloc: Global,
    passes: u32,
    telling: Telling,
) -> Result<bool, NoMemory>
    requires { (1 ≤ passes) × (passes ≤ 2) }
{
    let points = line(alloc)?;
    let plan = Plan::make(alloc, &points, plain(2, 4, 4, passes))?;
    goes_by(rt, alloc, &plan, telling)
}

#[test]
fn a_caller_is_answered_in_the_batch_that_it_was_told_of(rt: HostRuntime) {
    assert!(rt; goes(&rt, rt.alloc(), 1, Telling::OfTheLast) == Ok(true));
}

#[test]
fn queries_after_the_end_are_refused(rt: HostRuntime) {
    assert!(rt; goes(&rt, rt.alloc(), 1, Telling::Nothing) == Ok(true));
}

#[test]
fn a_caller_that_is_not_told_never_goes_back(rt: HostRuntime) {
    assert!(rt; goes(&rt, rt.alloc(), 1, Telling::OfNone) == Ok(true));
}

#[test]
fn a_second_pass_is_published_batch_by_batch(rt: HostRuntime) {
    assert!(rt; goes(&rt, rt.alloc(), 2, Telling::OfTheSecondPass) == Ok(true));
}
