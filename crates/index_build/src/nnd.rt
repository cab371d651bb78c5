//! The settings and the words of an index of nearest-neighbour lists.
ghost use Rattle.std.specs.Prelude.{◌≡◌, ◌≤◌};
ghost use Rattle.ann_defs.specs.declared.limits.TheConstants.{MAX_POINTS};
ghost use Rattle.index_build.specs.IndexOf.{AreForBuild, AreNndSettings, nnd_words};

use ann_defs::Alpha;
use command_options::Settings;
use nn_descent::NndSettings;

/// The settings of the builder.
pub(crate) fn settings_for_nnd(options: &Settings) -> NndSettings
    requires { AreForBuild options.now }
    ensures { AreNndSettings options.now result }
{
    NndSettings {
        start: options.start,
        seed: options.seed,
        degree: options.degree,
        alpha: Alpha {
            num: options.num,
            den: options.den,
        },
        list: options.list,
        trees: options.trees,
        leaf: options.leaf,
        rounds: options.rounds,
        floor: options.floor,
    }
}

/// The words of the lists, or of the rows of the index, whichever are more.
pub(crate) fn words_for_nnd(points: u32, options: &Settings) -> u64
    requires points { points ≤ MAX_POINTS }
    requires options { AreForBuild options.now }
    ensures { result ≡ nnd_words points options.now }
{
    u64::from(points) * (u64::from(options.list.max(options.degree)) + 1)
}
