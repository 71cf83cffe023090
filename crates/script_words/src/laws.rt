// What tokens promise, for callers to cite. Nothing here is done at run time.
ghost use Rattle.script_words.specs.Quiet.{EndsBeforeQuiet};

/// Nothing is done. The clause tells a caller that a name, a reserved word or a literal ends before
/// a byte that none of them has.
pub fn ends_before_quiet()
    ensures { EndsBeforeQuiet }
{}
