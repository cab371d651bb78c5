//! The pool of a command, and the limits of what settings ask for.
ghost use Rattle.std.specs.Prelude.{◌≡◌, ◌*◌, ◌<◌, ◌≤◌, Some, None, IfErr, OnOk};
ghost use Rattle.ann_defs.specs.declared.limits.TheConstants.{MAX_ANSWERS, MAX_CELLS, MAX_WORDS, MAX_WORKERS};
ghost use Rattle.steal_pool.specs.Pools.{pool_workers};
ghost use Rattle.index_build.specs.Limits.{limit_refusal, words_refusal, cells_refusal, answers_refusal};

use ann_defs::{MAX_ANSWERS, MAX_CELLS, MAX_WORDS};
use ann_shelf::Quantity;
use annbuild_lines::Fault;
use command_options::Settings;
use steal_pool::{LEAST_SEARCHES, Pool};

/// Refuses a number over its limit.
fn check_limit(name: Quantity, value: u64, limit: u64) -> Result<(), Fault>
    ensures few { OnOk result (value ≤ limit) }
    ensures ok { OnOk result (limit_refusal name value limit ≡ None) }
    ensures err { IfErr result (λ fault. limit_refusal name value limit ≡ Some fault) }
{
    if value > limit {
        return Err(Fault::TooLarge { name, value, limit });
    }
    Ok(())
}

/// Refuses so many times a number over their limit.
fn check_product(name: Quantity, times: u32, number: u32, limit: u64) -> Result<(), Fault>
    ensures few { OnOk result (times * number ≤ limit) }
    ensures ok { OnOk result (limit_refusal name (times * number) limit ≡ None) }
    ensures err { IfErr result (λ fault. limit_refusal name (times * number) limit ≡ Some fault) }
{
    check_limit(name, u64::from(times) * u64::from(number), limit)
}

/// Refuses more words than the rows of an index may take.
pub fn check_words(words: u64) -> Result<(), Fault>
    ensures few { OnOk result (words ≤ MAX_WORDS) }
    ensures ok { OnOk result (words_refusal words ≡ None) }
    ensures err { IfErr result (λ fault. words_refusal words ≡ Some fault) }
{
    check_limit(Quantity::Words, words, MAX_WORDS)
}

/// Refuses more points, of so many numbers each, than may be.
pub fn check_cells(count: u32, dim: u32) -> Result<(), Fault>
    ensures few { OnOk result (count * dim ≤ MAX_CELLS) }
    ensures ok { OnOk result (cells_refusal count dim ≡ None) }
    ensures err { IfErr result (λ fault. cells_refusal count dim ≡ Some fault) }
{
    check_product(Quantity::Cells, count, dim, MAX_CELLS)
}

/// Refuses more answers, so many to each query, than are kept beside a build.
pub fn check_answers(count: u32, k: u32) -> Result<(), Fault>
    ensures few { OnOk result (count * k ≤ MAX_ANSWERS) }
    ensures ok { OnOk result (answers_refusal count k ≡ None) }
    ensures err { IfErr result (λ fault. answers_refusal count k ≡ Some fault) }
{
    check_product(Quantity::Answers, count, k, MAX_ANSWERS)
}

/// The pool that settings ask for, where no round has more than `searches` searches.
///
/// It spares threads: a round of few tasks runs in the caller's. There are no more workers than the largest round has
/// searches for, so none takes memory for searches that it never makes.
pub fn pool_for(settings: &Settings, searches: u32) -> Pool
    requires { (1 ≤ settings.now.workers) × (settings.now.workers ≤ MAX_WORKERS) }
    ensures some { 0 < pool_workers result }
    ensures few { pool_workers result ≤ MAX_WORKERS }
{
    let workers = (searches / LEAST_SEARCHES).clamp(1, settings.workers);
    Pool::new(settings.pool, workers).sparing()
}
