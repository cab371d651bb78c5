ghost use Rattle.bin_files.specs.Laws.{TextIsSound, SoundIsText, TextsDiffer};

/// What the verdict and the text have to do with each other: a file breaks no rule exactly where it is the text of
/// points within the limits, and these points are the only ones. A call of it does nothing.
pub fn text_laws()
    ensures text_is_sound { TextIsSound }
    ensures sound_is_text { SoundIsText }
    ensures texts_differ { TextsDiffer }
{}
