//! The words of the command line.

ghost use Rattle.std.specs.Prelude.{◌≡◌, drop};

/// The words of the command line: the arguments after the first, which is the name of the program.
pub(crate) fn words_after_name(args: &[String]) -> &[String]
    ensures { result.now ≡ drop 1 args.now }
{
    match args.split_first() {
        Some((_, words)) => words,
        None => args,
    }
}
