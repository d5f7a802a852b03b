ghost use Rattle.cs_words.specs.Ranges.{OptionsAreInRange};

/// A law: the options that words give have values in their ranges.
pub fn options_are_in_range()
    ensures { OptionsAreInRange }
{}
