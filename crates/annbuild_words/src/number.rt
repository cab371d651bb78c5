//! Numbers and fractions, as words write them.
ghost use Rattle.std.specs.Prelude.{◌≡◌};
ghost use Rattle.annbuild_words.specs.Numbers.{number, fraction};

/// The number that a word writes in one or more decimal digits, where 64 bits hold it.
pub fn number_in(text: &str) -> Option<u64>
    ensures { result ≡ number text.now }
{
    if text.starts_with('+') {
        return None;
    }
    text.parse::<u64>().ok()
}

/// The numerator and the denominator that a word writes with one `/` between them.
#[tactic(auto, unfolding(crate::specs::Numbers::fraction))]
pub fn fraction_in(text: &str) -> Option<(u64, u64)>
    ensures { result ≡ fraction text.now }
{
    let Some((above, below)) = text.split_once('/') else {
        return None;
    };
    let Some(num) = number_in(above) else {
        return None;
    };
    let Some(den) = number_in(below) else {
        return None;
    };
    Some((num, den))
}
