//! The files of a `live`, read, and held against each other and the limits.
ghost use Rattle.std.specs.Prelude.{◌≡◌, ◌*◌, ◌≤◌, None, Some, IfOk, IfErr, IfSome, OnOk, length};
ghost use Rattle.std.specs.Option.{option_or};
ghost use Rattle.ann_defs.specs.Distance.{dim_of};
ghost use Rattle.ann_defs.specs.declared.limits.TheConstants.{MAX_ANSWERS, MAX_WORDS};
ghost use Rattle.ann_shelf.specs.Files.{bytes_of};
ghost use Rattle.ann_shelf.specs.Written.{Got};
ghost use Rattle.command_options.specs.Settings.{IsInRange};
ghost use Rattle.command_options.specs.declared.role.Role.TheVariants as roles;
ghost use Rattle.command_options.specs.declared.verb.Verb.TheVariants as verbs;
ghost use Rattle.command_shapes.specs.Ends.{Ends, HaveRead};
ghost use Rattle.command_shapes.specs.Reading.{AreOf};
ghost use Rattle.index_build.specs.IndexOf.{vamana_words};
ghost use Rattle.index_build.specs.Limits.{words_refusal, answers_refusal};
ghost use Rattle.annbuild_commands.specs.Living.{living, live_refusal, AreForLive};

use crate::inputs::unfit_queries;
use ann_shelf::Shelf;
use annbuild_lines::Fault;
use annbuild_words::{Request, Role, Settings};
use bin_files::Points;
use command_shapes::read_points_of;
use index_build::{check_answers, check_words, words_for_vamana};
use std::alloc::Global;

/// The points and the queries.
#[derive(Drop)]
pub(crate) struct LiveInputs {
    pub points: Points,
    pub queries: Points,
}

/// Refuses an index of too many words, and then too many answers.
fn check_sizes(points: &Points, queries: &Points, options: &Settings) -> Result<(), Fault>
    ensures words { OnOk result (vamana_words (length points.now.vectors) options.now ≤ MAX_WORDS) }
    ensures answers { OnOk result (length queries.now.vectors * options.now.k ≤ MAX_ANSWERS) }
    ensures ok { OnOk result (option_or (words_refusal (vamana_words (length points.now.vectors) options.now)) (answers_refusal (length queries.now.vectors) options.now.k) ≡ None) }
    ensures err { IfErr result (λ fault. option_or (words_refusal (vamana_words (length points.now.vectors) options.now)) (answers_refusal (length queries.now.vectors) options.now.k) ≡ Some fault) }
{
    check_words(words_for_vamana(points, options))?;
    check_answers(queries.count(), options.k)?;
    Ok(())
}

/// Refuses queries that don't fit the points, and what is over a limit.
fn check_live(points: &Points, queries: &Points, options: &Settings) -> Result<(), Fault>
    requires { IsInRange verbs.Live options.now }
    ensures dim { OnOk result (dim_of queries.now.vectors ≡ dim_of points.now.vectors) }
    ensures words { OnOk result (vamana_words (length points.now.vectors) options.now ≤ MAX_WORDS) }
    ensures answers { OnOk result (length queries.now.vectors * options.now.k ≤ MAX_ANSWERS) }
    ensures ok { OnOk result (live_refusal points.now.vectors queries.now.vectors options.now ≡ None) }
    ensures err { IfErr result (λ fault. live_refusal points.now.vectors queries.now.vectors options.now ≡ Some fault) }
{
    match unfit_queries(points, queries) {
        Some(fault) => Err(fault),
        None => check_sizes(points, queries, options),
    }
}

/// Reads both files, in their order, and refuses them where they don't fit together or are too large. Nothing is written.
pub(crate) fn read_live<F: Shelf>(
    alloc: Global,
    request: &Request<'_>,
    shelf: &mut F,
) -> Result<LiveInputs, Fault>
    requires { IsInRange verbs.Live request.now.settings }
    ensures points { IfOk result (λ x. IfSome (F.shown shelf.old).held (λ files. AreOf roles.Base request.now.settings.element (bytes_of files request.now.names.first.now) x.points)) }
    ensures queries { IfOk result (λ x. IfSome (F.shown shelf.old).held (λ files. AreOf roles.Queries request.now.settings.element (bytes_of files request.now.names.third.now) x.queries)) }
    ensures allowed { IfOk result (λ x. AreForLive x.points.vectors x.queries.vectors request.now.settings) }
    ensures fit { IfOk result (λ x. live_refusal x.points.vectors x.queries.vectors request.now.settings ≡ None) }
    ensures read { OnOk result (HaveRead (living request.now.names.first.now request.now.names.second.now request.now.names.third.now request.now.settings).reads (F.shown shelf.old) (F.shown shelf.new)) }
    ensures failed { IfErr result (λ fault. (had : Got) → Ends (living request.now.names.first.now request.now.names.second.now request.now.names.third.now request.now.settings) (F.shown shelf.old) (F.shown shelf.new) had had (Some fault)) }
{
    let element = request.settings.element;
    let points = read_points_of(alloc, shelf, Role::Base, request.names.first, element)?;
    let queries = read_points_of(alloc, shelf, Role::Queries, request.names.third, element)?;
    match check_live(&points, &queries, &request.settings) {
        Ok(()) => Ok(LiveInputs { points, queries }),
        Err(fault) => Err(fault),
    }
}
